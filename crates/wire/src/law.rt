//! Laws of frames and of streams of them.
ghost use Rattle.std.specs.Prelude.{◌≡◌, ◌≤◌, ◌<◌, ◌^◌, ℕ, ◌++◌, List, [], ◌∷◌, true, length, take, Some, None, Ok, Err, All};
ghost use Rattle.std.specs.List.{list_all};
ghost use Rattle.byteorder.specs.Endian.{big_bytes};
ghost use Rattle.logical_time.specs.declared.fault.Fault.{Fault};
ghost use Rattle.logical_time.specs.declared.fault.Fault.TheVariants.{RangeOrder, AlreadyHome, Oversize, UnknownTag, BadCount, TrailingBytes, Truncated};
ghost use Rattle.column_family.specs.declared.batch.Mutation.TheVariants.{DeleteColumn, DeleteRow, DeleteRange};
ghost use Rattle.messages.specs.declared.op.Op.{Op};
ghost use Rattle.messages.specs.declared.op.Op.TheVariants.{Move};
ghost use Rattle.messages.specs.declared.outcome.Outcome.TheVariants as outcomes;
ghost use Rattle.wire.specs.Requests.{spelling, is_spelled};
ghost use Rattle.wire.specs.Replies.{Reply, reply_spelling};
ghost use Rattle.wire.specs.Frames.{waits, whole, faulty, front_of, frames, NoneFirst, IsFrameFault, ReaderValue, IsRead};
ghost use Rattle.wire.specs.Worked as worked;

/// What is spelled is read back: the spelling of a request stands first in a stream as this request, whatever follows.
/// Does nothing; its contract is the law.
pub fn what_is_spelled_is_read()
    ensures { (op : Op) (bytes rest : List ℕ) → spelling op ≡ Some bytes → front_of (bytes ++ rest) ≡ whole op (length bytes) }
{}

/// What is read was spelled so: where a request stands first in bytes, they begin with its spelling. Does nothing; its
/// contract is the law.
pub fn what_is_read_is_spelled()
    ensures within { (bytes : List ℕ) (op : Op) (used : ℕ) → All (λ b. b < 256) bytes → front_of bytes ≡ whole op used → used ≤ length bytes }
    ensures spelled { (bytes : List ℕ) (op : Op) (used : ℕ) → All (λ b. b < 256) bytes → front_of bytes ≡ whole op used → spelling op ≡ Some (take used bytes) }
{}

/// No spelling begins another, and no two requests, and no two replies, have the same. Does nothing; its contract is
/// the law.
pub fn no_spelling_begins_another()
    ensures requests { (a b : Op) (s t rest : List ℕ) → spelling a ≡ Some s → spelling b ≡ Some t → s ++ rest ≡ t → (rest ≡ []) × (a ≡ b) }
    ensures replies { (a b : Reply) (s t rest : List ℕ) → reply_spelling a ≡ Some s → reply_spelling b ≡ Some t → s ++ rest ≡ t → (rest ≡ []) × (a ≡ b) }
{}

/// A stream is read in one way: the same bytes are the spellings of the same requests, and after them the same rest, in
/// which no request stands first. So the requests that a reader gives are those of the whole stream, however it was
/// cut. Does nothing; its contract is the law.
pub fn streams_are_read_in_one_way()
    ensures one_way { (xs ys : List Op) (a b : List ℕ) → list_all is_spelled xs ≡ true → list_all is_spelled ys ≡ true → NoneFirst a → NoneFirst b → frames xs ++ a ≡ frames ys ++ b → (xs ≡ ys) × (a ≡ b) }
    ensures reader { (s : ReaderValue) → IsRead s → NoneFirst s.rest }
{}

/// A fault that stands first is one of the faults of frames, `Oversize` to `Truncated`. Does nothing; its contract is
/// the law.
pub fn faults_of_frames()
    ensures { (bytes : List ℕ) (f : Fault) → front_of bytes ≡ faulty f → IsFrameFault f }
{}

/// A move is spelled by one byte for each data centre below 256, and none is spelled to any other. Does nothing; its
/// contract is the law.
pub fn moves_are_spelled()
    ensures each { (dc : ℕ) → dc < 256 → spelling (Move dc) ≡ Some (0 ∷ 0 ∷ 0 ∷ 2 ∷ 3 ∷ dc ∷ []) }
    ensures none { (dc : ℕ) → 256 ≤ dc → spelling (Move dc) ≡ None }
    ensures replies { (dc floor : ℕ) → dc < 256 → floor < 2 ^ 48 → reply_spelling (Ok (outcomes.Moved dc floor)) ≡ Some (0 ∷ 0 ∷ 0 ∷ 10 ∷ 133 ∷ dc ∷ big_bytes 8 floor) }
{}

/// Worked frames: each kind of request and of reply, byte by byte, and one of each fault. Does nothing; its contract is
/// the law.
pub fn worked_frames()
    ensures insertion { spelling worked.insertion ≡ Some worked.insertion_frame }
    ensures deletion { spelling (worked.batch_of (DeleteColumn (120 ∷ []))) ≡ Some worked.deletion_frame }
    ensures row_deletion { spelling (worked.batch_of DeleteRow) ≡ Some worked.row_deletion_frame }
    ensures range_deletion { spelling (worked.batch_of (DeleteRange (98 ∷ []) (99 ∷ []))) ≡ Some worked.range_deletion_frame }
    ensures read { spelling worked.read ≡ Some worked.read_frame }
    ensures range { spelling worked.range ≡ Some worked.range_frame }
    ensures moves { spelling worked.move ≡ Some worked.move_frame }
    ensures wrote { reply_spelling worked.wrote ≡ Some worked.wrote_frame }
    ensures answered { reply_spelling worked.answered ≡ Some worked.answered_frame }
    ensures collected { reply_spelling (Ok outcomes.Collected) ≡ Some worked.collected_frame }
    ensures moved { reply_spelling worked.moved ≡ Some worked.moved_frame }
    ensures refused { reply_spelling (Err RangeOrder) ≡ Some worked.refused_frame }
    ensures present_home { reply_spelling (Err AlreadyHome) ≡ Some worked.present_home_frame }
    ensures insertion_read { front_of worked.insertion_frame ≡ whole worked.insertion 23 }
    ensures read_read { front_of worked.read_frame ≡ whole worked.read 22 }
    ensures move_read { front_of worked.move_frame ≡ whole worked.move 6 }
    ensures too_long { front_of worked.too_long ≡ faulty Oversize }
    ensures unknown_request { front_of worked.unknown_request ≡ faulty UnknownTag }
    ensures unknown_change { front_of worked.unknown_change ≡ faulty UnknownTag }
    ensures unknown_predicate { front_of worked.unknown_predicate ≡ faulty UnknownTag }
    ensures flag_two { front_of worked.flag_two ≡ faulty UnknownTag }
    ensures many_changes { front_of worked.many_changes ≡ faulty BadCount }
    ensures many_keys { front_of worked.many_keys ≡ faulty BadCount }
    ensures many_names { front_of worked.many_names ≡ faulty BadCount }
    ensures trailing_byte { front_of worked.trailing_byte ≡ faulty TrailingBytes }
    ensures empty_body { front_of worked.empty_body ≡ faulty Truncated }
    ensures cut_count { front_of worked.cut_count ≡ faulty Truncated }
    ensures cut_move { front_of worked.cut_move ≡ faulty Truncated }
    ensures long_move { front_of worked.long_move ≡ faulty TrailingBytes }
    ensures greatest_length { front_of worked.greatest_length ≡ waits }
    ensures cut_read { front_of worked.cut_read ≡ waits }
{}
