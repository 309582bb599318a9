use bytes::Bytes;
use cast_clock::Times;
use cast_delay::Delay;
use cast_message::{Body, Message, Payload};
use cast_ready::ProcessUpdate;
use cast_types::{GroupNo, Key, NoMemory, Proc, SiteNo, Standing, Uid};
use std::alloc::Global;
use std::test::Fail;

const GROUP: GroupNo = GroupNo(1);

const MEMBER: Proc = Proc {
    site: SiteNo(1),
    serial: 2,
};

// The first message of a process of another site, in view 1 of the group.
const ID: Uid = Uid {
    group: GROUP,
    view: 1,
    proc: Proc {
        site: SiteNo(2),
        serial: 1,
    },
    count: 1,
};

// The time of the message.
fn time(alloc: Global) -> Result<Times, Fail> {
    let mut time = Times::new(alloc);
    time.enter(GROUP, 1)?;
    if time.count(GROUP, ID.proc) == 0 {
        time.bump(GROUP, ID.proc)?;
    }
    Ok(time)
}

fn message(alloc: Global) -> Result<Message, Fail> {
    match time(alloc)?.stamp()? {
        Some(times) => Ok(Message {
            id: ID,
            times,
            body: Body::Causal(Payload::from_bytes(Bytes::new())),
        }),
        None => Err(Fail::new("a time without a stamp")),
    }
}

// A process is in view 1 of the group.
fn enters(queue: &mut Delay) -> Result<(), NoMemory> {
    queue.admit(MEMBER)?;
    queue.note_view(GROUP, 1)?;
    queue.tell(MEMBER, &ProcessUpdate::Standing(GROUP, Standing::Member))
}

// Whether the message is all that it waits for: it is the next one, and the process delivers it.
fn delivers(queue: &mut Delay, message: &Message) -> Result<bool, NoMemory> {
    queue.offer(Key(0), message)?;
    let is_next = queue.next_ready(MEMBER, &[]) == Some(Key(0));
    queue.note_delivered(MEMBER, Key(0))?;
    Ok(is_next)
}

// Whether the queue says that nothing is ready for any process, and that none of the first place
// is.
fn is_idle(queue: &Delay, idle: usize) -> bool {
    queue.is_settled() && queue.busy_from(SiteNo(1), 0) == idle
}

// Whether a queue says that there is nothing to look for: before its process is in a group, and
// after that one has delivered all.
fn says_so(alloc: Global) -> Result<bool, Fail> {
    let mut queue = Delay::new(alloc);
    queue.admit(MEMBER)?;
    Ok(is_idle(&queue, 1))
}

// The same of a process in a group.
fn says_so_in_a_group(alloc: Global) -> Result<bool, Fail> {
    let mut queue = Delay::new(alloc);
    enters(&mut queue)?;
    let message = message(alloc)?;
    let delivered = delivers(&mut queue, &message)?;
    Ok(delivered && is_idle(&queue, 0))
}

#[test]
fn a_queue_with_nothing_to_deliver_says_so(rt: HostRuntime) -> Result<(), Fail> {
    let alone = says_so(rt.alloc())?;
    let in_a_group = says_so_in_a_group(rt.alloc())?;
    assert!(rt; alone && in_a_group);
    Ok(())
}
