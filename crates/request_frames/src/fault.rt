//! Why no request was read.

ghost use Rattle.std.specs.Prelude.{◌≡◌};
ghost use Rattle.request_frames.specs.declared.fault.RequestFault.TheVariants.{Failed};

use outer_io::ReadFailed;

/// Why no request was read.
#[derive(Clone, Copy, PartialEq, Eq, Drop)]
pub enum RequestFault {
    /// What comes next is not three frames.
    Bad,
    /// The shelf failed.
    Failed,
}

impl From<ReadFailed> for RequestFault {
    ghost from_gives = { λ _ e. e ≡ Failed };

    fn from(_: ReadFailed) -> Self {
        RequestFault::Failed
    }
}
