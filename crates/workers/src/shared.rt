//! The things that the threads of one term share.
ghost use Rattle.std.specs.Prelude.{◌≡◌};
ghost use Rattle.workers.specs.Configured.{configured_sizes};

use crate::bounds::Bounds;
use crate::state::RunState;
use hints::Ring;
use station::Core;

/// All that the threads of one term share: how they wait, the state of the run, the core at which they work, and the
/// gate. The core has the sizes that the run is to have.
#[derive(Drop)]
pub struct TermShared<'x, K: Bounds + Ring, G, R> {
    pub wait: &'x R,
    pub state: &'x RunState<K>,
    pub core: &'x Core,
    pub gate: &'x G,
    pub ghost sizes: { core.now.sizes ≡ configured_sizes K.config },
}
