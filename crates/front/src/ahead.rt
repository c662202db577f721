//! Front pc, half and station of the next tenant.
ghost use Rattle.std.specs.Prelude.{◌≡◌};
ghost use Rattle.inorder.specs.Unit.{front_half, front_pc, next_station, recent};
ghost use Rattle.front.specs.Fronts.{front_unit};

use crate::dispatcher::Front;
use instructions::{Half, Predictor};
use station::Core;

impl<'a, P: Predictor + Drop> Front<'a, P> {
    /// The station of the next tenant.
    pub fn next_station(&self, core: &Core) -> usize
        requires { self.now.core ≡ core.now }
        ensures { result ≡ next_station core.now.sizes (recent (front_unit self.now)) }
    {
        self.path.next_station(core.ring())
    }

    /// The front pc: that of the next tenant.
    pub fn next_pc(&self) -> u32
        ensures { result ≡ front_pc (front_unit self.now).tenants }
    {
        self.path.front_pc()
    }

    /// The half that the next tenant is of its instruction.
    pub fn next_half(&self) -> Half
        ensures { result ≡ front_half self.now.core.program (front_unit self.now).tenants }
    {
        self.path.front_half()
    }
}
