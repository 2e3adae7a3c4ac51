// The 23 stages (SPECIFICATION, section 4), one small function each. A stage gets its client and the numbers of the pool that it reads, and says
// what it does; it changes nothing by itself. It takes S as a number, not `Numbers`: README names the stages, which take any size (what may not change).
#![tactic(auto, unfolding(pool::specs::Stages::stage1, pool::specs::Stages::stage2, pool::specs::Stages::stage3, pool::specs::Stages::stage4, pool::specs::Stages::stage5, pool::specs::Stages::stage6, pool::specs::Stages::stage7, pool::specs::Stages::stage8, pool::specs::Stages::stage9, pool::specs::Stages::stage10, pool::specs::Stages::stage11, pool::specs::Stages::stage12, pool::specs::Stages::stage13, pool::specs::Stages::stage14, pool::specs::Stages::stage15, pool::specs::Stages::stage16, pool::specs::Stages::stage17, pool::specs::Stages::stage18, pool::specs::Stages::stage19, pool::specs::Stages::stage20, pool::specs::Stages::stage21, pool::specs::Stages::stage22, pool::specs::Stages::stage23, pool::specs::Stages::growth, pool::specs::Stages::first_count, pool::specs::Stages::advanced, pool::specs::Choose::choose))]

ghost use Rattle.std.specs.Prelude.{◌≡◌, ◌%◌, ◌<◌, ◌≤◌, unwrap_or};
ghost use Rattle.pool.specs.Limits.{max_pins};
ghost use Rattle.pool.specs.State.{none, pinned};
ghost use Rattle.books.specs.Optional.{IsNumber};
ghost use Rattle.pool.specs.Stages.{growth, first_count};
ghost use Rattle.pool.specs.Stages.{stage1, stage2, stage3, stage4, stage5, stage6, stage7, stage8, stage9, stage10, stage11, stage12};
ghost use Rattle.pool.specs.Stages.{stage13, stage14, stage15, stage16, stage17, stage18, stage19, stage20, stage21, stage22, stage23};

use crate::moves;
use answers::Stage;
use pool::{
    Client, Counted, EVICTED, INDEX_COUNT, INDEX_PAGES, Move, NO_PIN, NONE, ONE_PIN, Write,
};

// ---- numbers

/// The hand's slot.
fn slot_of(hand: u32, size: u8) -> u8
    requires { 0 < size }
    ensures { result ≡ hand % size }
{
    (hand % u32::from(size)) as u8
}

/// SPECIFICATION 4.27. What is added comes before what is taken away, so that no number falls below 0.
fn growth(size: u32, i: u32, s: u32) -> u32
    requires { (size < 256) × (i < 256) × (s < size) }
    ensures { result ≡ growth size i s }
{
    if i < s {
        return i + size + 1 - s;
    }
    i + 1 - s
}

/// SPECIFICATION 4.31.
fn first_count(cap: u8, page: u32) -> u8
    ensures { result ≡ first_count cap page }
{
    if page < INDEX_PAGES {
        cap.min(INDEX_COUNT)
    } else {
        1
    }
}

// ---- the stages

/// The frame found is not pinned yet: it may be evicted before 2.
pub fn stage1(client: Client, found: Option<u8>) -> Move
    requires { IsNumber found }
    ensures { result ≡ stage1 client (unwrap_or found none) }
{
    let Some(found) = found else {
        return moves::works(client, Stage::TakeFrame.number(), Write::Keep);
    };
    moves::works(
        Client { found, ..client },
        Stage::PinFound.number(),
        Write::Keep,
    )
}

/// The test and the pin are one action: between two actions the frame could be evicted.
pub fn stage2(client: Client, pins: u8) -> Move
    requires { pins ≤ pinned max_pins }
    ensures { result ≡ stage2 client pins }
{
    if pins == EVICTED {
        let next = Client {
            found: NONE,
            ..client
        };
        return moves::works(next, Stage::TakeFrame.number(), Write::Keep);
    }
    moves::works(
        client,
        Stage::RaiseFound.number(),
        Write::PutPins(client.found, pins + 1),
    )
}

/// No pin is added: the one of 2 is the grant's from now on.
pub fn stage3(client: Client, cap: u8, count: u8) -> Move
    ensures { result ≡ stage3 client cap count }
{
    moves::granted_found(client, cap, count, Counted::Hit)
}

/// Three numbers are set in one action: nobody else names the frame yet, so nobody could see it half set.
pub fn stage4(client: Client, cap: u8, fresh: Option<u8>) -> Move
    requires { IsNumber fresh }
    ensures { result ≡ stage4 client cap (unwrap_or fresh none) }
{
    let Some(own) = fresh else {
        return moves::stuck(client);
    };
    let count = first_count(cap, client.page);
    moves::works(
        Client { own, ..client },
        Stage::ReadFree.number(),
        Write::TakeFrame(own, client.page, ONE_PIN, count),
    )
}

/// Free never rises: once it is 0, a slot is had only by a sweep.
pub fn stage5(client: Client, free: u8) -> Move
    ensures { result ≡ stage5 client free }
{
    if free == 0 {
        return moves::works(client, Stage::StartSweep.number(), Write::Keep);
    }
    let next = Client {
        seen: free,
        ..client
    };
    moves::works(next, Stage::LowerFree.number(), Write::Keep)
}

/// Another client may have lowered free since 5. A slot is claimed before it is looked for, so that at 8 there is one for each client.
pub fn stage6(client: Client, free: u8) -> Move
    ensures { result ≡ stage6 client free }
{
    if free != client.seen {
        return moves::works(client, Stage::ReadFree.number(), Write::Keep);
    }
    if free == 0 {
        return moves::stuck(client);
    }
    moves::works(client, Stage::ReadHand.number(), Write::PutFree(free - 1))
}

/// This says only where to look first: others may fill that slot before 8.
pub fn stage7(client: Client, hand: u32, size: u8) -> Move
    requires { 0 < size }
    ensures { result ≡ stage7 client hand size }
{
    let next = Client {
        place: slot_of(hand, size),
        ..client
    };
    moves::works(next, Stage::FillSlot.number(), Write::Keep)
}

/// The search ends, since the client has claimed one of the empty slots (stage 6).
pub fn stage8(client: Client, there: Option<u8>, size: u8) -> Move
    requires { IsNumber there }
    ensures { result ≡ stage8 client (unwrap_or there none) size }
{
    if there.is_none() {
        return moves::works(
            client,
            Stage::MoveHand.number(),
            Write::PutSlot(client.place, client.own),
        );
    }
    let next = Client {
        place: moves::around(size, client.place),
        ..client
    };
    moves::works(next, Stage::FillSlot.number(), Write::Keep)
}

/// From where the hand is now, which others may have moved since 7.
pub fn stage9(client: Client, hand: u32) -> Move
    ensures { result ≡ stage9 client hand }
{
    moves::works(
        client,
        Stage::MapPage.number(),
        Write::PutHand(hand.wrapping_add(1)),
    )
}

/// The start is kept, as 16 reckons from there.
pub fn stage10(client: Client, hand: u32, size: u8) -> Move
    requires { 0 < size }
    ensures { result ≡ stage10 client hand size }
{
    let next = Client {
        victim: NONE,
        place: slot_of(hand, size),
        start: hand,
        busy: 0,
        ..client
    };
    moves::works(next, Stage::LookAtSlot.number(), Write::Keep)
}

/// No slot is free any more (stage 5), so that an empty one is claimed: its client is about to fill it.
pub fn stage11(client: Client, there: Option<u8>, size: u8) -> Move
    requires busy { client.busy < size }
    requires number { IsNumber there }
    ensures { result ≡ stage11 client (unwrap_or there none) size }
{
    let Some(victim) = there else {
        return moves::busy_visit(client, size);
    };
    moves::works(
        Client { victim, ..client },
        Stage::ReadPins.number(),
        Write::Keep,
    )
}

/// A frame that is evicted already, at 14, 20 or 23, only has to be taken out of the slot.
pub fn stage12(client: Client, pins: u8, size: u8) -> Move
    requires { client.busy < size }
    ensures { result ≡ stage12 client pins size }
{
    match pins {
        EVICTED => moves::works(client, Stage::ReplaceVictim.number(), Write::Keep),
        NO_PIN => moves::works(client, Stage::LowerCount.number(), Write::Keep),
        _ => moves::busy_visit(client, size),
    }
}

/// The count may be 0 already, if another sweep lowered it and did not evict the frame.
pub fn stage13(client: Client, count: u8, size: u8) -> Move
    ensures { result ≡ stage13 client count size }
{
    let left = count.saturating_sub(1);
    let write = Write::PutCount(client.victim, left);
    if left == 0 {
        return moves::works(client, Stage::EvictVictim.number(), write);
    }
    moves::next_slot(client, size, write)
}

/// Another client may have pinned the frame since 12, or evicted it.
pub fn stage14(client: Client, pins: u8, size: u8) -> Move
    ensures { result ≡ stage14 client pins size }
{
    let unused = pins == NO_PIN;
    if unused {
        return moves::works(
            client,
            Stage::ReplaceVictim.number(),
            Write::PutPins(client.victim, EVICTED),
        );
    }
    moves::next_slot(client, size, Write::Keep)
}

/// Another client that met the victim evicted may have put its own frame here since. As numbers: in place, a client may have no victim here.
pub fn stage15(client: Client, there: Option<u8>, size: u8) -> Move
    ensures { result ≡ stage15 client (unwrap_or there none) size }
{
    if there.unwrap_or(NONE) == client.victim {
        return moves::works(
            client,
            Stage::PassSlot.number(),
            Write::PutSlot(client.place, client.own),
        );
    }
    moves::next_slot(client, size, Write::Keep)
}

/// The start is reduced before it is compared with the place, which is a slot number.
pub fn stage16(client: Client, hand: u32, size: u8) -> Move
    requires { 0 < size }
    ensures { result ≡ stage16 client hand size }
{
    let slots = u32::from(size);
    let by = growth(slots, u32::from(client.place), client.start % slots);
    moves::works(
        client,
        Stage::RemoveEntry.number(),
        Write::PutHand(hand.wrapping_add(by)),
    )
}

/// By frame and not by page: the page may have been mapped anew (stage 22), and then it is not dropped. Read: the victim's page, the place of its
/// entry, and the frame there. As numbers, as at 15.
pub fn stage17(client: Client, page: u32, place: Option<u8>, mapped: Option<u8>) -> Move
    ensures { result ≡ stage17 client page (unwrap_or place none) (unwrap_or mapped none) }
{
    let next = Client {
        victim: NONE,
        ..client
    };
    if mapped.unwrap_or(NONE) == client.victim {
        let emptied = Write::PutEntry(place.unwrap_or(NONE), page, NONE);
        return moves::works_as(next, Counted::Drop, Stage::MapPage.number(), emptied);
    }
    moves::works(next, Stage::MapPage.number(), Write::Keep)
}

/// The look-up and the new entry are one action: else two clients could each add an entry of one page. Read: the frame found, and the first
/// unused place.
pub fn stage18(client: Client, found: Option<u8>, unused: Option<u8>) -> Move
    requires found { IsNumber found }
    requires unused { IsNumber unused }
    ensures { result ≡ stage18 client (unwrap_or found none) (unwrap_or unused none) }
{
    match (found, unused) {
        (Some(found), _) => {
            moves::works(
                Client { found, ..client },
                Stage::PinMapped.number(),
                Write::Keep,
            )
        }
        (None, None) => moves::stuck(client),
        (None, Some(place)) => moves::granted(
            client,
            client.own,
            Write::PutEntry(place, client.page, client.own),
            Counted::Admitted,
        ),
    }
}

/// One action, as at 2.
pub fn stage19(client: Client, pins: u8) -> Move
    requires { pins ≤ pinned max_pins }
    ensures { result ≡ stage19 client pins }
{
    if pins == EVICTED {
        return moves::works(client, Stage::MapAnew.number(), Write::Keep);
    }
    moves::works(
        client,
        Stage::GiveUpToJoin.number(),
        Write::PutPins(client.found, pins + 1),
    )
}

/// After the pin of 19 and not before: without it the own frame is still needed, at 22.
pub fn stage20(client: Client, pins: u8) -> Move
    ensures { result ≡ stage20 client pins }
{
    moves::evict_own(client, pins, Stage::RaiseJoined.number())
}

/// As at 3, with the pin of 19.
pub fn stage21(client: Client, cap: u8, count: u8) -> Move
    ensures { result ≡ stage21 client cap count }
{
    moves::granted_found(client, cap, count, Counted::Join)
}

/// The entry may have been removed (stage 17) or have another frame since 18. Read: the place of the page's entry, and the frame there. As numbers,
/// as at 15.
pub fn stage22(client: Client, place: Option<u8>, mapped: Option<u8>) -> Move
    ensures { result ≡ stage22 client (unwrap_or place none) (unwrap_or mapped none) }
{
    if mapped.unwrap_or(NONE) == client.found {
        return moves::granted(
            client,
            client.own,
            Write::PutEntry(place.unwrap_or(NONE), client.page, client.own),
            Counted::Revived,
        );
    }
    let next = Client {
        found: NONE,
        ..client
    };
    moves::works(next, Stage::GiveUpToStartAnew.number(), Write::Keep)
}

pub fn stage23(client: Client, pins: u8) -> Move
    ensures { result ≡ stage23 client pins }
{
    moves::evict_own(client, pins, Stage::TakeFrame.number())
}
