ghost use Rattle.std.specs.Prelude.{◌≡◌, map};
ghost use Rattle.toml.specs.View.{table_view};
ghost use Rattle.cast_script.specs.WordReadings.{each};
ghost use Rattle.cast_config.specs.Faults.{Gives};
ghost use Rattle.cast_config.specs.Keys.{key_of, keys_of, secret_of};

use crate::domains::sites_from;
use crate::fault::{Cause, ConfigFault, Field};
use crate::fields::{fault, number_at, numbers_at, text_at};
use crate::setup::{document, tables_at};
use cast_types::limits::MAX_SITES;
use cast_types::{List, SiteNo};
use std::alloc::Global;
use toml::Table;

/// A key that this host has with another one.
#[derive(Drop)]
pub struct HostKey {
    /// The sites of the other host: 1 to 16, in rising order.
    pub sites: List<SiteNo>,
    /// The number by which datagrams name the key.
    pub number: u8,
    pub secret: [u8; 32],
}

// The bytes of a secret.
fn secret_of(text: &str) -> Result<[u8; 32], ConfigFault>
    ensures { result ≡ secret_of text.now }
{
    let mut secret = [0u8; 32];
    match hex::decode_to_slice(text, &mut secret) {
        Ok(()) => Ok(secret),
        Err(_) => Err(fault(Field::Secret, Cause::Range)),
    }
}

// What the table of a key says.
#[tactic(auto, unfolding(crate::specs::Keys::key_of))]
fn key_of(alloc: Global, table: &Table) -> Result<HostKey, ConfigFault>
    ensures { Gives result (key_of (table_view table.now)) }
{
    let sites = numbers_at(alloc, table, Field::Sites, MAX_SITES)?;
    let number = number_at(table, Field::Number, 0, 255)?;
    let secret = secret_of(text_at(table, Field::Secret)?)?;
    Ok(HostKey {
        sites: List::from_vec(sites_from(alloc, &sites)?),
        number: number as u8,
        secret,
    })
}

// What the tables of keys say, in their order.
fn all_keys(alloc: Global, tables: &[&Table]) -> Result<List<HostKey>, ConfigFault>
    ensures { Gives result (each key_of (map (λ t. table_view t.now) tables.now)) }
{
    let mut keys = List::new(alloc);
    for table in tables {
        keys.push(key_of(alloc, table)?)?;
    }
    Ok(keys)
}

/// Reads the keys of a host from the text of a TOML document.
///
/// The fault is the first of the tests in this order: the text; `key`, an array of tables; of each
/// its `sites`, `number` and `secret`. `NoMemory` comes where an allocation was refused, and says
/// nothing of the text.
#[tactic(auto, unfolding(crate::specs::Keys::keys_of))]
pub fn read_keys(alloc: Global, text: &str) -> Result<List<HostKey>, ConfigFault>
    // Which keys, or the first fault.
    ensures exact { Gives result (keys_of text.now) }
{
    let document = document(alloc, text)?;
    let tables = tables_at(alloc, &document, Field::Key)?;
    all_keys(alloc, &tables)
}
