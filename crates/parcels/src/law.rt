//! Laws of parcels.
ghost use Rattle.std.specs.Prelude.{◌≡◌, ◌≤◌, ◌<◌, ℕ, false, List, length, Some, Ok, Err, All};
ghost use Rattle.logical_time.specs.declared.fault.Fault.TheVariants.{UnknownTag, BadCount, TrailingBytes, Truncated};
ghost use Rattle.messages.specs.declared.envelope.Envelope.{Envelope};
ghost use Rattle.wire.specs.Fields.{longest};
ghost use Rattle.parcels.specs.Spelling.{greatest, parcel, spelling};
ghost use Rattle.parcels.specs.Kinds.{asks};
ghost use Rattle.parcels.specs.Reading.{parcel_at};
ghost use Rattle.parcels.specs.Worked as worked;

/// What is spelled is read back. Does nothing; its contract is the law.
pub fn what_is_spelled_is_read()
    ensures { (e : Envelope) (bytes : List ℕ) → spelling e ≡ Some bytes → parcel_at bytes ≡ Ok e }
{}

/// What is read was spelled so: the text of an envelope is the bytes that it was read from. They are its spelling
/// where they are no longer than a request may be, and, where it asks for no rows, than a parcel may be. Does nothing;
/// its contract is the law.
pub fn what_is_read_is_spelled()
    ensures text { (bytes : List ℕ) (e : Envelope) → All (λ b. b < 256) bytes → parcel_at bytes ≡ Ok e → parcel e ≡ bytes }
    ensures short { (bytes : List ℕ) (e : Envelope) → All (λ b. b < 256) bytes → length bytes ≤ longest → parcel_at bytes ≡ Ok e → spelling e ≡ Some bytes }
    ensures other { (bytes : List ℕ) (e : Envelope) → All (λ b. b < 256) bytes → length bytes ≤ greatest → asks e.body ≡ false → parcel_at bytes ≡ Ok e → spelling e ≡ Some bytes }
{}

/// Worked envelopes: each kind, byte by byte, and one of each fault. Does nothing; its contract is the law.
pub fn worked_parcels()
    ensures begin { spelling worked.begin ≡ Some worked.begin_bytes }
    ensures prepare { spelling worked.prepare ≡ Some worked.prepare_bytes }
    ensures yes { spelling worked.yes ≡ Some worked.yes_bytes }
    ensures commit { spelling worked.commit ≡ Some worked.commit_bytes }
    ensures at { spelling worked.at ≡ Some worked.at_bytes }
    ensures not_by { spelling worked.not_by ≡ Some worked.not_by_bytes }
    ensures check { spelling worked.check ≡ Some worked.check_bytes }
    ensures read { spelling worked.read ≡ Some worked.read_bytes }
    ensures read_at { spelling worked.read_at ≡ Some worked.read_at_bytes }
    ensures repl_begin { spelling worked.repl_begin ≡ Some worked.repl_begin_bytes }
    ensures repl_part { spelling worked.repl_part ≡ Some worked.repl_part_bytes }
    ensures notify { spelling worked.notify ≡ Some worked.notify_bytes }
    ensures prepare_remote { spelling worked.prepare_remote ≡ Some worked.prepare_remote_bytes }
    ensures dep_check { spelling worked.dep_check ≡ Some worked.dep_check_bytes }
    ensures dep_ok { spelling worked.dep_ok ≡ Some worked.dep_ok_bytes }
    ensures done { spelling worked.done ≡ Some worked.done_bytes }
    ensures part_now { spelling worked.part_now ≡ Some worked.part_now_bytes }
    ensures part_at { spelling worked.part_at ≡ Some worked.part_at_bytes }
    ensures collected { spelling worked.collected ≡ Some worked.collected_bytes }
    ensures begin_read { parcel_at worked.begin_bytes ≡ Ok worked.begin }
    ensures repl_begin_read { parcel_at worked.repl_begin_bytes ≡ Ok worked.repl_begin }
    ensures part_at_read { parcel_at worked.part_at_bytes ≡ Ok worked.part_at }
    ensures unknown_kind { parcel_at worked.unknown_kind ≡ Err UnknownTag }
    ensures late_clock { parcel_at worked.late_clock ≡ Err UnknownTag }
    ensures ninth_shard { parcel_at worked.ninth_shard ≡ Err UnknownTag }
    ensures unknown_answer { parcel_at worked.unknown_answer ≡ Err UnknownTag }
    ensures many_changes { parcel_at worked.many_changes ≡ Err BadCount }
    ensures many_rows { parcel_at worked.many_rows ≡ Err BadCount }
    ensures trailing_byte { parcel_at worked.trailing_byte ≡ Err TrailingBytes }
    ensures nothing { parcel_at worked.nothing ≡ Err Truncated }
    ensures cut_clock { parcel_at worked.cut_clock ≡ Err Truncated }
    ensures without_kind { parcel_at worked.without_kind ≡ Err Truncated }
    ensures cut_txn { parcel_at worked.cut_txn ≡ Err Truncated }
{}
