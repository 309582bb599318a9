ghost use Rattle.std.specs.Prelude.{◌≡◌, ◌<◌, None, IfOk, Some, OnOk, not, ◌+◌};
ghost use Rattle.cast_domain.specs.Records.{GivesBack, KeepsBeside, records_in, Makes};
ghost use Rattle.cast_domain.specs.PartCalls.{send_in};
ghost use Rattle.cast_domain.specs.Calls.{records};
ghost use Rattle.std.specs.List.{fold};
ghost use Rattle.std.specs.Option.{option_map, option_map_or};
ghost use Rattle.cast_rules.specs.Rules.Owing.{frame_for, resend_due, send_for, tick};
ghost use Rattle.cast_domain.specs.Resent.{IsFrameOf};
ghost use Rattle.cast_message.specs.declared.site.SiteFrame.TheVariants as frame;

use cast_domain::Domain;
use cast_domain::lent::Lent;
use cast_message::SiteFrame;
use cast_timer::OwedKey;
use cast_types::{NoMemory, SiteNo};

// Time passes: the moment is at least this one, and what is due is sent again.
pub fn tick(domain: &mut Domain, millis: u64, lent: &mut Lent<'_>) -> Result<(), NoMemory>
    ensures stays { KeepsBeside domain.old lent.old domain.new lent.new }
    ensures made { OnOk result
        (Makes (λ r. tick records r millis) domain.old lent.old domain.new lent.new) }
{
    domain.moment.reach(millis);
    resend_due(domain, lent)
}

// Sends all frames that are due again, in their order, and then owes them all for the next moment:
// what is sent does not hang on what is owed.
fn resend_due(domain: &Domain, lent: &mut Lent<'_>) -> Result<(), NoMemory>
    ensures back { GivesBack domain.now.config.domain lent.old lent.new }
    ensures made { OnOk result
        (Makes (resend_due records) domain.now lent.old domain.now lent.new) }
{
    let now = domain.moment.millis();
    let keys = lent.shared.timers.due(domain.config.domain, now)?;
    send_all(domain, keys, lent)?;
    lent.shared
        .renew_due(domain.config.domain, now, domain.next_due())
}

// Sends the frames that keys stand for, in their order.
fn send_all(domain: &Domain, keys: Vec<OwedKey>, lent: &mut Lent<'_>) -> Result<(), NoMemory>
    ensures back { GivesBack domain.now.config.domain lent.old lent.new }
    ensures made { OnOk result (Makes (λ r. fold (send_for records) r keys.items)
        domain.now lent.old domain.now lent.new) }
{
    let mut last = None;
    for key in keys {
        last = send_behind(domain, key, last, lent)?;
    }
    Ok(())
}

// Sends the frame that a key stands for, behind the one that was sent last, and gives it with its
// key. The keys of a message that goes to many sites stand next to each other, so that it is looked
// for once.
fn send_behind(
    domain: &Domain,
    key: OwedKey,
    last: Option<(OwedKey, SiteFrame)>,
    lent: &mut Lent<'_>,
) -> Result<Option<(OwedKey, SiteFrame)>, NoMemory>
    requires stands { IsFrameOf (records_in domain.now lent.old) last }
    ensures back { GivesBack domain.now.config.domain lent.old lent.new }
    ensures made { OnOk result
        (Makes (λ r. send_for records r key) domain.now lent.old domain.now lent.new) }
    ensures stands { IfOk result (IsFrameOf (records_in domain.now lent.new)) }
{
    let found = frame_behind(domain, key, last, lent)?;
    send_found(domain, key.site, &found, lent)?;
    Ok(found)
}

// The frame that a key stands for, which is mostly the one that was sent last, with its key.
fn frame_behind(
    domain: &Domain,
    key: OwedKey,
    last: Option<(OwedKey, SiteFrame)>,
    lent: &Lent<'_>,
) -> Result<Option<(OwedKey, SiteFrame)>, NoMemory>
    requires stands { IsFrameOf (records_in domain.now lent.now) last }
    ensures stands { IfOk result (IsFrameOf (records_in domain.now lent.now)) }
    ensures frame { IfOk result
        (λ f. option_map (λ l. l.1) f ≡ frame_for records (records_in domain.now lent.now) key) }
{
    match last {
        Some((other, frame)) if key.is_same_message(&other) => Ok(Some((other, frame))),
        _ => frame_with_key(domain, key, lent),
    }
}

// Sends a frame that was found to a site.
fn send_found(
    domain: &Domain,
    to: SiteNo,
    found: &Option<(OwedKey, SiteFrame)>,
    lent: &mut Lent<'_>,
) -> Result<(), NoMemory>
    ensures back { GivesBack domain.now.config.domain lent.old lent.new }
    ensures made { OnOk result (Makes (λ r. option_map_or (λ l. send_in r to l.1) found.now r)
        domain.now lent.old domain.now lent.new) }
{
    match found {
        Some((_, frame)) => domain.send(lent.outs, to, frame.copy()?),
        None => Ok(()),
    }
}

// The frame that a key stands for, with the key.
fn frame_with_key(
    domain: &Domain,
    key: OwedKey,
    lent: &Lent<'_>,
) -> Result<Option<(OwedKey, SiteFrame)>, NoMemory>
    ensures { IfOk result (λ f.
        f ≡ option_map (λ x. (key, x)) (frame_for records (records_in domain.now lent.now) key)) }
{
    match domain.frame_for(&key, lent)? {
        Some(frame) => Ok(Some((key, frame))),
        None => Ok(None),
    }
}
