//! What the rule for loads is good for.
ghost use Rattle.std.specs.Prelude.{◌≡◌, ℕ, List};
ghost use Rattle.lsq.specs.declared.entry.Entry.{Entry};
ghost use Rattle.lsq.specs.declared.answer.Answer.TheVariants.{Forward, Memory, Blocked};
ghost use Rattle.lsq.specs.LoadRule.{answer_over};
ghost use Rattle.lsq.specs.LastStores.{ReadsStores, ReadsMemory, WaitsFor};

/// Over all older entries, and a load of any width: what is forwarded is, byte for byte, what the
/// last older store to that byte writes. At `Memory` no older store writes any of them. What
/// blocks a load is an older store that has no address yet, or where each has one the youngest that
/// overlaps the load, as long as that has no data yet or not all bytes of the load.
pub fn loads_read_the_last_stores()
    ensures forward { (older : List Entry) (address width raw : ℕ) →
        answer_over older address width ≡ Forward raw → ReadsStores older address width raw }
    ensures memory { (older : List Entry) (address width : ℕ) →
        answer_over older address width ≡ Memory → ReadsMemory older address width }
    ensures blocked { (older : List Entry) (address width place : ℕ) →
        answer_over older address width ≡ Blocked place → WaitsFor older address width place }
{}
