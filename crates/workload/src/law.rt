//! Which JSON values are moves, and how a move is told.
ghost use Rattle.std.specs.Prelude.{◌≡◌, ◌<◌, ◌≤◌, ◌∷◌, [], ℕ, Some, None, codes};
ghost use Rattle.serde_json.specs.Data.{Data, number, unsigned, object, member, no_members};
ghost use Rattle.messages.specs.declared.op.Op.TheVariants as op;
ghost use Rattle.messages.specs.Topology.{TopologyValue};
ghost use Rattle.workload.specs.declared.transcript.Entry.TheVariants as entry;
ghost use Rattle.workload.specs.Script.{op_of};
ghost use Rattle.workload.specs.Text.{text_of};

/// `{"move": d}` is a move to `d` exactly where that is the number of a data centre of the topology, and none beside another
/// member. Does nothing; its contract is the law.
#[tactic(auto, using(crate::proofs::Moves::is_move, crate::proofs::Moves::is_beyond, crate::proofs::Moves::is_not_alone))]
pub fn moves_go_to_data_centres()
    ensures there { (top : TopologyValue) (dc : ℕ) → dc < top.dcs → op_of top (object (member (codes "move") (number (unsigned dc)) no_members)) ≡ Some (op.Move dc) }
    ensures beyond { (top : TopologyValue) (dc : ℕ) → top.dcs ≤ dc → op_of top (object (member (codes "move") (number (unsigned dc)) no_members)) ≡ None }
    ensures alone { (top : TopologyValue) (d : Data) (e : Data) → op_of top (object (member (codes "batch") d (member (codes "move") e no_members))) ≡ None }
{}

/// How the second operation of node 2 is told, a move to data centre 1 with the floor 6. Does nothing; its contract is the law.
#[tactic(auto, using(crate::proofs::Moves::is_told))]
pub fn a_move_is_told_with_its_floor()
    ensures { text_of (entry.Moved 2 2 1 6 ∷ []) ≡ codes "node 2 op 2 moved to 1 floor 6\n" }
{}
