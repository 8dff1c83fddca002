// Laws of lawful logs, which a reader can check against what he expects: they read the views back at the places of
// entries. Each stands as the contract of a function that does nothing.
ghost use Rattle.std.specs.Prelude.{◌≡◌, ◌<◌, ◌≤◌, ◌↔◌, ◌⊎◌, ℕ, Bool, true, List, ◌∷◌, ◌++◌, [], Some, take};
ghost use Rattle.pfc_log.specs.declared.entry.Entry.{Entry};
ghost use Rattle.pfc_log.specs.declared.entry.Entry.TheVariants.{Begin, WrittenOff};
ghost use Rattle.pfc_log.specs.declared.start.Start.{Start};
ghost use Rattle.pfc_log.specs.declared.start.Start.TheVariants as start;
ghost use Rattle.pfc_log.specs.declared.entry.Uncached.{Uncached};
ghost use Rattle.pfc_log.specs.Views.{place, Flying, Here, is_ended, kept, durable, started, times, is_lost, is_asked, is_device, is_disk_hit};
ghost use Rattle.pfc_log.specs.Owners.{owner, owners};
ghost use Rattle.pfc_log.specs.Tallies.{tally, together, gain};
ghost use Rattle.pfc_log.specs.Positions.{StandsAt, IsOutSince, IsInSince, IsDoneSince, IsBegun, EndsBetween, IsWritten, IsSynced, IsOfUncached, IsOfOff};
ghost use Rattle.pfc_log.specs.Lawful.{Lawful, Row};

/// A log grows by one entry that may stand there, and each front of a lawful log is lawful.
#[tactic(auto, using(crate::proofs::Stated::growth))]
pub fn lawful_growth()
    ensures one_more { (first : Start) (es : List Entry) (e : Entry) → Lawful first es → Row first es e → Lawful first (es ++ e ∷ []) }
    ensures front { (first : Start) (es : List Entry) (p : ℕ) → Lawful first es → Lawful first (take p es) }
{}

/// Where a block is. It is in flight exactly where its flight began and neither landed nor failed since. It is in memory
/// exactly where its flight landed and it hasn't left since; it is done then exactly where it was written or dropped since.
pub fn places_read_back()
    ensures flying { (first : Start) (es : List Entry) → Lawful first es → (i t n : ℕ) →
        (place i es ≡ Flying t n) ↔ ((p : ℕ) × IsOutSince es i t n p) }
    ensures here { (first : Start) (es : List Entry) → Lawful first es → (i t : ℕ) (done : Bool) →
        (place i es ≡ Here t done) ↔ ((p : ℕ) × IsInSince es i t p × IsDoneSince done es i p) }
{}

/// A block has one flight at a time: between two begins of one block, the first flight landed or failed.
#[tactic(auto, using(crate::proofs::Stated::one_flight))]
pub fn one_flight_at_a_time()
    ensures { (first : Start) (es : List Entry) → Lawful first es → (i t u n m p q : ℕ) →
        StandsAt es p (Begin t i n) → StandsAt es q (Begin u i m) → p < q → EndsBetween es t p q }
{}

/// A ticket begins once, and lands or fails at most once, behind its begin.
#[tactic(auto, using(crate::proofs::Stated::tickets))]
pub fn tickets_are_once()
    ensures begins_once { (first : Start) (es : List Entry) → Lawful first es → (t i j n m p q : ℕ) →
        StandsAt es p (Begin t i n) → StandsAt es q (Begin t j m) → p ≡ q }
    ensures ends_once { (first : Start) (es : List Entry) → Lawful first es → (t p q : ℕ) (e f : Entry) →
        StandsAt es p e → is_ended t e ≡ true → StandsAt es q f → is_ended t f ≡ true → p ≡ q }
    ensures ends_begun { (first : Start) (es : List Entry) → Lawful first es → (t p : ℕ) (e : Entry) →
        StandsAt es p e → is_ended t e ≡ true → IsBegun es t p }
{}

/// The owner of a flight is the client of its begin, and stays so whatever is added.
#[tactic(auto, using(crate::proofs::Stated::owned))]
pub fn owners_stay()
    ensures begun { (first : Start) (es : List Entry) → Lawful first es → (t i n p : ℕ) →
        StandsAt es p (Begin t i n) → owner t es ≡ Some n }
    ensures stays { (es : List Entry) (e : Entry) (t n : ℕ) → owner t es ≡ Some n → owner t (es ++ e ∷ []) ≡ Some n }
{}

/// A block is written exactly where it started so or a `wrote` of it stands, and durable exactly where it started so or
/// a `wrote` of it stands before a `synced`.
pub fn sets_read_back()
    ensures written { (first : Start) (es : List Entry) (i : ℕ) →
        ((kept first i es).written ≡ true) ↔ ((started first i ≡ true) ⊎ IsWritten es i) }
    ensures durable { (first : Start) (es : List Entry) (i : ℕ) →
        (durable first i es ≡ true) ↔ ((started first i ≡ true) ⊎ IsSynced es i) }
{}

/// A client goes to the origin for a failed flight at most as often as it asked for that flight, and for a failed store at
/// most as often as it found the block on disk.
pub fn direct_reads_are_bounded()
    ensures lost { (first : Start) (es : List Entry) → Lawful first es → (i n t : ℕ) →
        times (is_lost i n t) es ≤ times (is_asked i n t) es }
    ensures device { (first : Start) (es : List Entry) → Lawful first es → (i n : ℕ) →
        times (is_device i n) es ≤ times (is_disk_hit i n) es }
{}

/// What stands in a log that isn't cached, from the start or any longer.
pub fn uncached_logs()
    ensures start { (why : Uncached) (es : List Entry) → Lawful (start.Uncached why) es → (p : ℕ) (e : Entry) →
        StandsAt es p e → IsOfUncached why e }
    ensures later { (first : Start) (es : List Entry) → Lawful first es → (p q : ℕ) (e : Entry) →
        StandsAt es p WrittenOff → p < q → StandsAt es q e → IsOfOff e }
{}

/// A client's tally grows with the log, by what each entry adds to it.
#[tactic(auto, using(crate::proofs::Tallied::tally_more))]
pub fn tallies_grow()
    ensures { (n : ℕ) (es : List Entry) (x : Entry) → tally n (es ++ x ∷ []) ≡ together (tally n es) (gain n (owners es) x) }
{}
