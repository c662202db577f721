//! What holds of every unit that legal steps reach. Each function is a law: it does nothing, and
//! its contract is proved.
ghost use Rattle.std.specs.Prelude.{List, ℕ};
ghost use Rattle.instructions.specs.Programs.{Program};
ghost use Rattle.inorder.specs.Unit.{Sizes};
ghost use Rattle.inorder.specs.Legal.{Taken};
ghost use Rattle.inorder.specs.Theorem.{IsRight};
ghost use Rattle.inorder.specs.Laws.{StandsRight, NamesOne, OnlyRetirementsCommit, HistoryGrows};
ghost use Rattle.inorder.specs.StationWords.{StationsFollow};
ghost use Rattle.inorder.specs.OperandWords.{OperandsFollow};
ghost use Rattle.inorder.specs.Fates.{FatesFollow};
ghost use Rattle.inorder.specs.Numbers.{ValuesAreWords};
ghost use Rattle.inorder.specs.declared.history.Entry.{Entry};
ghost use Rattle.inorder.specs.History.{IsLegal};
ghost use Rattle.inorder.specs.OneHistory.{TellsOn, TellsOne};
ghost use Rattle.inorder.specs.Wakes.{AreMarked, LosesNoWake};
ghost use Rattle.inorder.specs.Moves.{LeadOn, SeveralLead};
ghost use Rattle.inorder.specs.Plain.{PlainLead};
ghost use Rattle.inorder.specs.Loads.{LoadsAreAnswered};
ghost use Rattle.inorder.specs.Legal.{reached};
ghost use Rattle.inorder.specs.Renewals.{BeginsAgain, IsKnownOfBefore, PastIsPast, PastStays, RenewalsCount, StopIsNotRenewed};
ghost use Rattle.inorder.specs.Answered.{FinishIsAnswered, ClaimIsAnswered, RetirementIsAnswered};

/// Whatever steps were taken, what the unit has committed is the state of the in-order machine
/// after as many instructions, and a stop that has retired is that machine's stop.
pub fn one_thread_unit_is_right()
    ensures { (p : Program) (c : Sizes) (history : List Taken) → IsRight p c history }
{}

/// The headline: what the callers of a shared unit do and are told is one legal history. Each reply
/// is allowed at its point there, what a caller had seen before a call is a beginning of what it sees
/// after the call, and at each point the committed registers and memory are those of the machine in
/// order.
pub fn one_legal_history()
    ensures call { (p : Program) (c : Sizes) → TellsOne p c }
    ensures calls { (p : Program) (c : Sizes) → TellsOn p c }
{}

/// Of the tenants let since the last renewal at most as many are live as there are stations, each of
/// the path has the station of its place on the path, and a live one is the last of its station.
pub fn ring_is_right()
    ensures { (p : Program) (c : Sizes) (history : List Taken) → StandsRight p c history }
{}

/// A station and a tag name one tenant of those let since the last renewal.
pub fn a_tag_names_one_tenant()
    ensures { (p : Program) (c : Sizes) (history : List Taken) → NamesOne p c history }
{}

/// A renewal changes no tenant, and all stations begin again with first tags.
pub fn a_renewal_begins_again()
    ensures { (p : Program) (c : Sizes) (history : List Taken) (by : ℕ) →
        BeginsAgain p c (reached p c history) by }
{}

/// A tenant that was let before the last renewal has left, and of those let since, a station and a tag name one.
pub fn what_is_past_is_past()
    ensures { (p : Program) (c : Sizes) (history : List Taken) → PastIsPast p c history }
{}

/// After a stop that has retired nothing is renewed.
pub fn a_retired_stop_is_not_renewed()
    ensures { (p : Program) (c : Sizes) (history : List Taken) → StopIsNotRenewed p c history }
{}

/// Where a history goes on with no renewal, the tenants let before the last renewal stay the same
/// ones. Each renewal raises the number of renewals by one.
pub fn nothing_is_past_without_a_renewal()
    ensures past { (p : Program) (c : Sizes) (old new : List Entry) → PastStays p c old new }
    ensures counted { RenewalsCount }
{}

/// No source of a new tenant waits for one that was let before the last renewal.
pub fn a_value_of_before_is_known()
    ensures { (p : Program) (c : Sizes) (history : List Taken) (by : ℕ) →
        IsKnownOfBefore p c (reached p c history) by }
{}

/// A retirement commits its tenant, unless that is a stop; the write of a first half waits, and is
/// committed with its second half. No other step commits anything.
pub fn only_retirements_commit()
    ensures { (p : Program) (c : Sizes) (history : List Taken) (by : ℕ) →
        OnlyRetirementsCommit p c history by }
{}

/// What a longer history keeps of its beginning.
pub fn histories_grow()
    ensures { (p : Program) (c : Sizes) (more history : List Taken) →
        HistoryGrows p c more history }
{}

/// Several allowed steps of one caller lead from a unit that is reached to one that is reached too,
/// and those of them that retire nobody commit nothing. Two such sequences, one after the other, are one.
/// What is reached without speculation stays so, if none of them speculates.
pub fn several_steps_lead_on()
    ensures lead { (p : Program) (c : Sizes) (by : ℕ) → SeveralLead p c by }
    ensures on { (p : Program) (c : Sizes) (by : ℕ) → LeadOn p c by }
    ensures plain { (p : Program) (c : Sizes) (by : ℕ) → PlainLead p c by }
{}

/// Of the tenants let since the last renewal a live one is what its station shows, a station that is
/// not free shows one live tenant, and each step moves the words of the stations as stated.
pub fn stations_follow()
    ensures { (p : Program) (c : Sizes) (history : List Taken) (by : ℕ) →
        StationsFollow p c history by }
{}

/// A let sets both operands of its station, a delivery to the last tenant of a station sets one,
/// and nothing else changes an operand.
pub fn operands_follow()
    ensures { (p : Program) (c : Sizes) (history : List Taken) (by : ℕ) →
        OperandsFollow p c history by }
{}

/// What the fate of a tenant says of its outcome, of what it made and of where it goes on.
pub fn fates_follow()
    ensures { (p : Program) (c : Sizes) (history : List Taken) → FatesFollow p c history }
{}

/// Each value, address and pc of a tenant is a 32-bit word, where the program's numbers are.
pub fn values_are_words()
    ensures { (p : Program) (c : Sizes) (history : List Taken) → ValuesAreWords p c history }
{}

/// The rule for loads is right over the live loads and stores. Where it forwards or says memory,
/// the load may complete, with the bytes of the last older stores or of the committed memory. Where
/// it blocks, it names an older live store that has no address or overlaps the load.
pub fn loads_are_answered_right()
    ensures { (p : Program) (c : Sizes) (history : List Taken) → LoadsAreAnswered p c history }
{}

/// Where each value that a finish or a load made was carried along its links, and each source that
/// comes from its creator was asked for, no open tenant waits for a value that is there.
pub fn no_wake_is_lost()
    ensures { (p : Program) (c : Sizes) (history : List Entry) →
        IsLegal p c history → AreMarked p c history → LosesNoWake p c history }
{}

/// A unit that has claimed a tenant may finish it, or is told that it is stale.
pub fn a_finish_is_answered()
    ensures { (p : Program) (c : Sizes) (history : List Entry) → FinishIsAnswered p c history }
{}

/// A claim of a station is answered: a tenant of it may be claimed or waits for a source, or the
/// caller is told that the station is not open.
pub fn a_claim_is_answered()
    ensures { (p : Program) (c : Sizes) (history : List Entry) → ClaimIsAnswered p c history }
{}

/// A retirement is allowed, or is refused for one reason.
pub fn a_retirement_is_answered()
    ensures { (p : Program) (c : Sizes) (history : List Entry) →
        IsLegal p c history → RetirementIsAnswered p c history }
{}
