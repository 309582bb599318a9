ghost use Rattle.std.specs.Prelude.{◌≡◌, ◌<◌, ◌&&◌, ◌==◌};
ghost use Rattle.cast_types.specs.Names.{proc_eq};
ghost use Rattle.cast_types.specs.Sets.{is_among};

use cast_types::Proc;
use cast_view::is_among;

// Whether a process is one of these.
pub fn is_named(process: Proc, members: &[Proc]) -> bool
    ensures { result ≡ is_among proc_eq process members.now }
{
    members.iter().any(|member| process == *member)
}
