ghost use Rattle.std.specs.Prelude.{◌≡◌};
ghost use Rattle.toml.specs.View.{table_view};
ghost use Rattle.cast_config.specs.Entries.{network_of};
ghost use Rattle.cast_config.specs.Documents.{network_at};

use crate::fault::{ConfigFault, Field};
use crate::fields::{boolean_at, find, number_at_or, table_of};
use toml::Table;

/// What a document says of the network, as `Setup` has it.
#[derive(Clone, Copy)]
pub struct Network {
    pub bundle: Option<u32>,
    pub delay: u32,
}

// What the table of the network says.
#[tactic(auto, unfolding(crate::specs::Entries::network_of))]
fn network_of(table: &Table) -> Result<Network, ConfigFault>
    ensures { result ≡ network_of (table_view table.now) }
{
    let bundle = boolean_at(table, Field::Bundle)?;
    let most = number_at_or(table, Field::Datagram, 8_972, 512, 60_000)?;
    let delay = number_at_or(table, Field::Delay, 0, 0, 1_000_000)?;
    Ok(Network {
        bundle: if bundle { Some(most) } else { None },
        delay,
    })
}

/// What a document says of the network: no bundles and no delay where there is no network.
#[tactic(auto, unfolding(crate::specs::Documents::network_at))]
pub fn network_at(document: &Table) -> Result<Network, ConfigFault>
    ensures { result ≡ network_at (table_view document.now) }
{
    match find(document, Field::Network) {
        Some(value) => network_of(table_of(value, Field::Network)?),
        None => Ok(Network {
            bundle: None,
            delay: 0,
        }),
    }
}
