ghost use Rattle.std.specs.Prelude.{◌≡◌, ◌+◌, ◌<◌, ◌^◌, if◌then◌else◌, List, ℕ, None, OnOk, Err};
ghost use Rattle.std.specs.declared.option.Option.{Option};
ghost use Rattle.cast_types.specs.declared.names.SiteNo.{SiteNo};
ghost use Rattle.cast_link.specs.Wires.{Adds, Receives, Stays};
ghost use Rattle.cast_link.specs.declared.wire.LinkFault.TheVariants as faults;

use bytes::Bytes;
use cast_types::SiteNo;
use std::alloc::AllocError;
use thiserror::Error;

/// Why there is no datagram.
#[derive(Clone, Copy, Debug, PartialEq, Eq, Error)]
pub enum LinkFault {
    /// The device failed.
    #[error("the device failed")]
    Device,
    /// An allocation was refused. The datagram is lost.
    #[error("no memory")]
    NoMemory,
}

impl From<AllocError> for LinkFault {
    ghost from_gives = { λ _ fault. fault ≡ faults.NoMemory };

    fn from(_error: AllocError) -> LinkFault {
        LinkFault::NoMemory
    }
}

/// What carries datagrams between sites. Each may be lost, come twice, or come late.
pub trait Wire {
    // All that the wire was given, each with the site that it is for, at a type that tells of it.
    ghost given: { Self → Option (List (SiteNo × List ℕ)) } = { λ _. None };

    // The datagrams that wait to be received, at a type that tells of them.
    ghost waiting: { Self → Option (List (List ℕ)) } = { λ _. None };

    // How many calls failed.
    ghost failed: { Self → ℕ };

    /// Gives the wire a datagram for a site. Answers whether the device took it.
    fn send(&mut self, to: SiteNo, bytes: &[u8]) -> bool
        requires { failed self.old + 1 < 2 ^ 64 }
        ensures given { Adds (given self.old) (given self.new) (to, bytes.now) }
        ensures waiting { Stays (waiting self.old) (waiting self.new) }
        ensures failed { failed self.new
            ≡ (if result then failed self.old else failed self.old + 1) };

    /// The datagram that is first. Waits for one, where the device does.
    fn receive(&mut self) -> Result<Bytes, LinkFault>
        requires { failed self.old + 1 < 2 ^ 64 }
        ensures received { Receives (waiting self.old) (waiting self.new) result }
        ensures given { Stays (given self.old) (given self.new) }
        ensures device { result ≡ Err LinkFault.Device → failed self.new ≡ failed self.old + 1 }
        ensures ok { OnOk result (failed self.new ≡ failed self.old) }
        ensures memory { result ≡ Err LinkFault.NoMemory → failed self.new ≡ failed self.old };

    /// How many calls failed since the wire was made.
    fn failures(&self) -> u64
        ensures { result ≡ failed self.now };
}
