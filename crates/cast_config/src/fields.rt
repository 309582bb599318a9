ghost use Rattle.std.specs.Prelude.{◌≡◌, ◌==◌, ◌≤◌, IfOk, map, option_map};
ghost use Rattle.std.specs.Ordering.{nat_cmp};
ghost use Rattle.std.specs.List.{list_any};
ghost use Rattle.toml.specs.View.{items_view, table_view, view};
ghost use Rattle.cast_types.specs.Sets.{set_of};
ghost use Rattle.cast_script.specs.WordReadings.{each};
ghost use Rattle.cast_config.specs.Faults.{Gives, GivesAs, IsSeen, fault};
ghost use Rattle.cast_config.specs.Fields.{all_pass, at_field, boolean_at, boolean_of, counted};
ghost use Rattle.cast_config.specs.Fields.{integer_of, items_of_array, list_of, needed, number_at};
ghost use Rattle.cast_config.specs.Fields.{number_at_or, number_of, numbers_at, numbers_of};
ghost use Rattle.cast_config.specs.Fields.{rising, table_of, text_at, text_of, within};
ghost use Rattle.cast_config.specs.Documents.{are_distinct};

use crate::fault::{Cause, ConfigFault, Field};
use cast_types::{NoMemory, sorted};
use std::alloc::Global;
use toml::{Table, Value};

/// This cause at this field.
pub fn fault(field: Field, cause: Cause) -> ConfigFault
    ensures { result ≡ fault field cause }
{
    ConfigFault { field, cause }
}

/// What stands at a field of a table.
pub fn find(table: &Table, field: Field) -> Option<&Value>
    ensures { option_map (λ v. view v.now) result ≡ at_field field (table_view table.now) }
{
    table.get(field.name())
}

/// What stands at a field that a table has to have.
#[tactic(auto, unfolding(crate::specs::Fields::needed))]
pub fn require(table: &Table, field: Field) -> Result<&Value, ConfigFault>
    ensures { IsSeen (λ v. view v.now) result (needed field (table_view table.now)) }
{
    match find(table, field) {
        Some(value) => Ok(value),
        None => Err(fault(field, Cause::Missing)),
    }
}

// A whole number.
#[tactic(auto, unfolding(crate::specs::Fields::integer_of))]
fn integer_of(value: &Value, field: Field) -> Result<i64, ConfigFault>
    ensures { result ≡ integer_of field (view value.now) }
{
    match value.as_integer() {
        Some(number) => Ok(number),
        None => Err(fault(field, Cause::WrongKind)),
    }
}

// A whole number, if it is within limits.
#[tactic(auto, unfolding(crate::specs::Fields::within))]
fn within(number: i64, field: Field, least: u32, most: u32) -> Result<u32, ConfigFault>
    ensures value { result ≡ within field least most number }
    ensures bounded { IfOk result (λ n. (least ≤ n) × (n ≤ most)) }
{
    match u32::try_from(number) {
        Ok(number) if least <= number && number <= most => Ok(number),
        _ => Err(fault(field, Cause::Range)),
    }
}

// A number within limits.
#[tactic(auto, unfolding(crate::specs::Fields::number_of))]
fn number_of(value: &Value, field: Field, least: u32, most: u32) -> Result<u32, ConfigFault>
    ensures value { result ≡ number_of field least most (view value.now) }
    ensures bounded { IfOk result (λ n. (least ≤ n) × (n ≤ most)) }
{
    within(integer_of(value, field)?, field, least, most)
}

/// The number at a field of a table, within limits.
#[tactic(auto, unfolding(crate::specs::Fields::number_at))]
pub fn number_at(table: &Table, field: Field, least: u32, most: u32) -> Result<u32, ConfigFault>
    ensures value { result ≡ number_at field least most (table_view table.now) }
    ensures bounded { IfOk result (λ n. (least ≤ n) × (n ≤ most)) }
{
    number_of(require(table, field)?, field, least, most)
}

/// The number at a field of a table, within limits; the usual one where the field is absent.
#[tactic(auto, unfolding(crate::specs::Fields::number_at_or))]
pub fn number_at_or(
    table: &Table,
    field: Field,
    usual: u32,
    least: u32,
    most: u32,
) -> Result<u32, ConfigFault>
    ensures { result ≡ number_at_or field usual least most (table_view table.now) }
{
    match find(table, field) {
        Some(value) => number_of(value, field, least, most),
        None => Ok(usual),
    }
}

// A text.
#[tactic(auto, unfolding(crate::specs::Fields::text_of))]
fn text_of(value: &Value, field: Field) -> Result<&str, ConfigFault>
    ensures { IsSeen (λ text. text.now) result (text_of field (view value.now)) }
{
    match value.as_str() {
        Some(text) => Ok(text),
        None => Err(fault(field, Cause::WrongKind)),
    }
}

/// The text at a field of a table.
#[tactic(auto, unfolding(crate::specs::Fields::text_at))]
pub fn text_at(table: &Table, field: Field) -> Result<&str, ConfigFault>
    ensures { IsSeen (λ text. text.now) result (text_at field (table_view table.now)) }
{
    text_of(require(table, field)?, field)
}

/// A table.
#[tactic(auto, unfolding(crate::specs::Fields::table_of))]
pub fn table_of(value: &Value, field: Field) -> Result<&Table, ConfigFault>
    ensures { IsSeen (λ table. table_view table.now) result (table_of field (view value.now)) }
{
    match value.as_table() {
        Some(table) => Ok(table),
        None => Err(fault(field, Cause::WrongKind)),
    }
}

// A boolean.
#[tactic(auto, unfolding(crate::specs::Fields::boolean_of))]
fn boolean_of(value: &Value, field: Field) -> Result<bool, ConfigFault>
    ensures { result ≡ boolean_of field (view value.now) }
{
    match value.as_bool() {
        Some(truth) => Ok(truth),
        None => Err(fault(field, Cause::WrongKind)),
    }
}

/// The boolean at a field of a table; false where the field is absent.
#[tactic(auto, unfolding(crate::specs::Fields::boolean_at))]
pub fn boolean_at(table: &Table, field: Field) -> Result<bool, ConfigFault>
    ensures { result ≡ boolean_at field (table_view table.now) }
{
    match find(table, field) {
        Some(value) => boolean_of(value, field),
        None => Ok(false),
    }
}

/// The items of an array.
#[tactic(auto, unfolding(crate::specs::Fields::items_of_array))]
pub fn items_of(value: &Value, field: Field) -> Result<&[Value], ConfigFault>
    ensures { IsSeen (λ items. map view items.now) result (items_of_array field (view value.now)) }
{
    match value.as_array() {
        Some(items) => Ok(items.as_slice()),
        None => Err(fault(field, Cause::WrongKind)),
    }
}

// Whether these are whole numbers.
fn are_integers(items: &[Value], field: Field) -> Result<(), ConfigFault>
    ensures { result ≡ all_pass (integer_of field) (map view items.now) }
{
    for item in items {
        integer_of(item, field)?;
    }
    Ok(())
}

// The number of a site or of a group.
fn short_number_of(value: &Value, field: Field) -> Result<u16, ConfigFault>
    ensures { result ≡ number_of field 1 65535 (view value.now) }
{
    Ok(number_of(value, field, 1, 65_535)? as u16)
}

// The numbers that these are, if each may be that of a site or of a group.
fn all_within(alloc: Global, items: &[Value], field: Field) -> Result<Vec<u16>, ConfigFault>
    ensures { GivesAs (λ numbers. numbers.items)
        result (each (number_of field 1 65535) (map view items.now)) }
{
    let mut numbers = Vec::new(alloc);
    for item in items {
        numbers.push(short_number_of(item, field)?)?;
    }
    Ok(numbers)
}

// Numbers in rising order, if no two are alike.
#[tactic(auto, unfolding(crate::specs::Fields::rising))]
fn read_rising(alloc: Global, numbers: &[u16], field: Field) -> Result<Vec<u16>, ConfigFault>
    ensures { GivesAs (λ set. set.items) result (rising field numbers.now) }
{
    let set = set_of(alloc, numbers)?;
    if set.len() == numbers.len() {
        Ok(set)
    } else {
        Err(fault(field, Cause::Repeated))
    }
}

// The set of these numbers, in rising order.
fn set_of(alloc: Global, numbers: &[u16]) -> Result<Vec<u16>, NoMemory>
    ensures { IfOk result (λ set. set.items ≡ set_of nat_cmp numbers.now) }
{
    let mut set = Vec::new(alloc);
    for number in numbers {
        sorted::insert(&mut set, *number)?;
    }
    Ok(set)
}

/// Whether no number stands twice.
pub fn are_distinct(numbers: &[u16]) -> bool
    ensures { result ≡ are_distinct numbers.now }
{
    for (index, number) in numbers.iter().enumerate() {
        if is_among(*number, &numbers[index + 1..]) {
            return false;
        }
    }
    true
}

// Whether a number is one of these.
fn is_among(number: u16, numbers: &[u16]) -> bool
    ensures { result ≡ list_any (λ m. m == number) numbers.now }
{
    numbers.iter().any(|other| *other == number)
}

/// Whether there are 1 to so many; else the field is out of range.
#[tactic(auto, unfolding(crate::specs::Fields::counted))]
pub fn check_count(count: usize, field: Field, most: usize) -> Result<(), ConfigFault>
    ensures { result ≡ counted field most count }
{
    if count < 1 || count > most {
        return Err(fault(field, Cause::Range));
    }
    Ok(())
}

// 1 to so many numbers of sites or groups, all different, in rising order.
#[tactic(auto, unfolding(crate::specs::Fields::numbers_of))]
fn numbers_of(
    alloc: Global,
    value: &Value,
    field: Field,
    most: usize,
) -> Result<Vec<u16>, ConfigFault>
    ensures { GivesAs (λ numbers. numbers.items) result (numbers_of field most (view value.now)) }
{
    let items = items_of(value, field)?;
    are_integers(items, field)?;
    let numbers = all_within(alloc, items, field)?;
    check_count(numbers.len(), field, most)?;
    read_rising(alloc, &numbers, field)
}

/// The numbers of sites or groups at a field of a table: 1 to so many, all different, in rising
/// order.
#[tactic(auto, unfolding(crate::specs::Fields::numbers_at))]
pub fn numbers_at(
    alloc: Global,
    table: &Table,
    field: Field,
    most: usize,
) -> Result<Vec<u16>, ConfigFault>
    ensures { GivesAs (λ numbers. numbers.items)
        result (numbers_at field most (table_view table.now)) }
{
    numbers_of(alloc, require(table, field)?, field, most)
}
