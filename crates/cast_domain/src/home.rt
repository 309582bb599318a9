ghost use Rattle.std.specs.Prelude.{◌≡◌, ◌<◌, ◌&&◌, ◌==◌};
ghost use Rattle.cast_rules.specs.Rules.Home.{wants};

use crate::domain::Domain;
use cast_types::{List, NoMemory, Proc, SiteNo};

impl Domain {
    ghost use Rattle.std.specs.Prelude.{IfOk, vec_len};
    ghost use Rattle.cast_domain.specs.Records.{TellsAlone};
    ghost use Rattle.cast_domain.specs.Calls.{records};

    // The messages that the home lacks, each with the site that it wants it from.
    pub fn wants(&self, place: usize) -> Result<List<(SiteNo, (Proc, u32))>, NoMemory>
        requires { place < vec_len self.now.groups }
        ensures { IfOk result (TellsAlone (λ r. wants records r place) self.now) }
    {
        let record = self.record(place);
        record.home.wants(record.name)
    }
}
