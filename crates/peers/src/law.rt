//! Laws of a link, and of frames.
ghost use Rattle.std.specs.Prelude.{◌≡◌, ◌⊎◌, ℕ, ◌+◌, ◌≤◌, ◌<◌, ◌^◌, List, ◌++◌, length, take, Some, None, Ok, Err, slice_get, Contains};
ghost use Rattle.logical_time.specs.declared.fault.Fault.TheVariants.{Oversize};
ghost use Rattle.peers.specs.Ends.{next_of, parcel_at};
ghost use Rattle.peers.specs.Links.{LinkEvent, started, run, Happens, IsBeginning, carried, kept_from};
ghost use Rattle.peers.specs.Frames.{frame, frames, AllFit, first_length};

/// Whatever is lost, repeated or sent again, on whatever connections: what was taken is a beginning of what was given, in order,
/// and the receiver wants the number of the next. Does nothing; its contract is the law.
pub fn taken_is_a_beginning()
    ensures beginning { (es : List LinkEvent) → Happens es started → IsBeginning (run es started).taken (run es started).given }
    ensures wanted { (es : List LinkEvent) → Happens es started → (run es started).inbound ≡ length (run es started).taken }
{}

/// At every moment each parcel that was given and not taken is kept by the sender's end, under its number; and what is kept is
/// what was given. So the sender can go on from what the receiver wants next, whatever was lost, and no number that the receiver
/// ever told is refused. Does nothing; its contract is the law.
pub fn nothing_is_lost()
    ensures kept { (es : List LinkEvent) (number : ℕ) (parcel : List ℕ) → Happens es started → length (run es started).taken ≤ number
        → slice_get (run es started).given number ≡ Some parcel → parcel_at (run es started).outbound number ≡ Some parcel }
    ensures given { (es : List LinkEvent) (number : ℕ) (parcel : List ℕ) → Happens es started
        → parcel_at (run es started).outbound number ≡ Some parcel → slice_get (run es started).given number ≡ Some parcel }
    ensures goes_on { (es : List LinkEvent) → Happens es started → ((run es started).outbound.first ≤ (run es started).inbound) × ((run es started).inbound ≤ next_of (run es started).outbound) }
    ensures told { (es : List LinkEvent) (number : ℕ) → Happens es started → Contains (run es started).told number → number ≤ next_of (run es started).outbound }
{}

/// Where all that is kept comes in order, from the number on that the receiver wants, all that was given is taken; and all was
/// taken wherever the receiver wants the number that the next parcel gets. Does nothing; its contract is the law.
pub fn all_is_taken()
    ensures carried { (es : List LinkEvent) → Happens es started
        → (run (carried (run es started).inbound (kept_from (run es started).inbound (run es started).outbound)) (run es started)).taken ≡ (run es started).given }
    ensures even { (es : List LinkEvent) → Happens es started → (run es started).inbound ≡ next_of (run es started).outbound → (run es started).taken ≡ (run es started).given }
{}

/// A frame that stands first is read, whatever follows; a part of one isn't, and one that is too long is seen by its length. Does
/// nothing; its contract is the law.
pub fn frames_are_read()
    ensures read { (most : ℕ) (body rest : List ℕ) → length body ≤ most → length body < 256 ^ 4 → first_length most (frame body ++ rest) ≡ Ok (Some (length body)) }
    ensures part { (most : ℕ) (body : List ℕ) (k : ℕ) → length body ≤ most → length body < 256 ^ 4 → k < length (frame body) → first_length most (take k (frame body)) ≡ Ok None }
    ensures too_long { (most : ℕ) (body rest : List ℕ) (k : ℕ) → most < length body → length body < 256 ^ 4 → 4 ≤ k → first_length most (take k (frame body ++ rest)) ≡ Err Oversize }
{}

/// One stream is one list of frames: of two lists with which it begins one is a beginning of the other. Does nothing; its contract
/// is the law.
pub fn frames_are_one_list()
    ensures { (bodies others : List (List ℕ)) (rest more : List ℕ) → AllFit bodies → AllFit others → frames bodies ++ rest ≡ frames others ++ more → IsBeginning bodies others ⊎ IsBeginning others bodies }
{}
