// What the player's remarks on writes and commands ask of a device.
ghost use Rattle.std.specs.Prelude.{◌≡◌};
ghost use Rattle.profile.specs.Nodes.{fault, addressed};
ghost use Rattle.profile.specs.Machines.{node_alone};
ghost use Rattle.device.specs.View.{machines_of};
ghost use Rattle.device.specs.Conditions.{masks_of};

use crate::Device;
use dictionary::entries::find;
use nodes::{in_fault, is_addressed};
use objects::value_at;
use profile::Home;

// The row of the output filter masks.
const OUTPUT_MASK: usize = 10;

impl Device {
    // The output filter masks of an entry's lines, as a read of them answers.
    #[tactic(auto, unfolding(crate::specs::Conditions::masks_of))]
    pub fn masks(&self, index: u16, sub: u8) -> u32
        ensures { result ≡ masks_of (machines_of self.now) index sub }
    {
        let Ok(entry) = find(index, sub) else {
            return 0;
        };
        match entry.home {
            Home::Window(_, width, place) => value_at(
                &self.store,
                Home::Window(OUTPUT_MASK, width, place),
            ),
            _ => 0,
        }
    }

    pub fn is_in_fault(&self) -> bool
        ensures { result ≡ fault (machines_of self.now node_alone 0).node }
    {
        in_fault(self.store.node())
    }

    // A command to this node number is for this device.
    pub fn is_addressed(&self, to: u8) -> bool
        ensures { result ≡ addressed to (machines_of self.now node_alone 0).node }
    {
        is_addressed(self.store.node(), to)
    }
}
