//! What an instruction reads.
ghost use Rattle.std.specs.Prelude.{◌≡◌, ◌≤◌, ℕ, IfSome, Option, length, option_copied, take};
ghost use Rattle.one_thread.specs.Window.{register_after, register_in, source_in};

use crate::station::Station;
use crate::window::Window;
use crate::with_pending_low::WithPendingLow;
use instructions::Reg;

// The youngest of these tenants that writes register `r`.
#[inline(always)]
fn youngest_writer(tenants: &[Station], r: Reg) -> Option<&Station>
    ensures behind { (v : Option ℕ) →
        register_in r v tenants.now ≡ register_after r v (option_copied result) }
    ensures writes { IfSome result (λ w. w.now.destination ≡ r) }
{
    let mut at = tenants.len();
    while 0 < at {
        at -= 1;
        let writer = &tenants[at];
        if writer.destination.number() == r.number() {
            return Some(writer);
        }
    }
    None
}

/// What register `r` is worth to the tenant at `i`, if that was made: the youngest older tenant that writes it has it, or else
/// the committed registers.
#[inline(always)]
pub fn source(window: &Window, ahead: &WithPendingLow, i: usize, r: Reg) -> Option<u32>
    requires { i ≤ length window.now }
    ensures { result ≡ source_in ahead.now.registers (take i window.now) r }
{
    if r.number() == 0 {
        return Some(0);
    }
    let (older, younger) = window.before(i);
    if let Some(writer) = youngest_writer(younger, r) {
        return writer.made;
    }
    match youngest_writer(older, r) {
        Some(writer) => writer.made,
        None => Some(ahead.register(r)),
    }
}
