// The calls for C: each wraps one call and has its contract. host/include/mivrozh.h declares them. What a call answers is laid in its last arguments
// by the functions of `laying`, how many values of HMAC it made in the last one (02, Wish 6).
// The C interface has no Result, no enum and no struct of the engine's: so each call takes its arguments one by one, a profile by its number, returns
// 01's number, and has 1 or 0 for a slot's state and arrays side by side for a screen's fields.
#![tactic(auto)]

ghost use Rattle.rules.specs.Facts.{slot_input};
ghost use Rattle.rules.specs.Calls.{add, change, revoke, open_slot, open_any, read, write};
ghost use Rattle.rules.specs.Format.{format_input};
ghost use Rattle.rules.specs.Promises.{Does, DoesListed, DoesRead, DoesFormat, FillsOpened};
ghost use Rattle.profiles.specs.Suites.{built};
ghost use Rattle.screens.specs.Screens.{slot_screen, detail_screen, Shows, ShowsArrays};

use formatting::FormatInput;
use header::PayloadUnit;
use keyslot::SlotInput;

#[unsafe(no_mangle)]
pub extern "C" fn mivrozh_format(
    image: &mut [u8],
    profile: u8,
    stripes: u32,
    key: &[u8],
    salt: &[u8; 32],
    count: u32,
    uuid: &[u8],
    values: &mut u64,
) -> u8
    ensures { DoesFormat built (format_input profile stripes key.now salt.now count uuid.now)
        image.old result image.new values.new }
{
    let input = FormatInput {
        profile,
        stripes,
        key,
        salt,
        count,
        uuid,
    };
    laying::lay_values(values, formatting::format(image, input))
}

#[unsafe(no_mangle)]
pub extern "C" fn mivrozh_add(
    image: &mut [u8],
    slot: u8,
    key: &[u8],
    passphrase: &[u8],
    salt: &[u8; 32],
    count: u32,
    random: &[u8],
    list: &mut [u8],
    values: &mut u64,
) -> u8
    ensures { DoesListed built image.old
        (add slot key.now (slot_input passphrase.now salt.now count random.now) list.old)
        result image.new list.old list.new values.new }
{
    let input = SlotInput {
        passphrase,
        salt,
        count,
        random,
    };
    laying::lay_values(values, adding::add(image, slot, key, input, list))
}

#[unsafe(no_mangle)]
pub extern "C" fn mivrozh_open_slot(
    image: &[u8],
    slot: u8,
    passphrase: &[u8],
    opened: &mut [u8; 66],
    values: &mut u64,
) -> u8
    ensures { FillsOpened built image.now (open_slot slot passphrase.now) result opened.new values.new }
{
    laying::lay_opened(opened, values, opening::open_slot(image, slot, passphrase))
}

#[unsafe(no_mangle)]
pub extern "C" fn mivrozh_open(
    image: &[u8],
    passphrase: &[u8],
    opened: &mut [u8; 66],
    values: &mut u64,
) -> u8
    ensures { FillsOpened built image.now (open_any passphrase.now) result opened.new values.new }
{
    laying::lay_opened(opened, values, opening::open(image, passphrase))
}

#[unsafe(no_mangle)]
pub extern "C" fn mivrozh_change(
    image: &mut [u8],
    from: u8,
    old: &[u8],
    to: u8,
    new: &[u8],
    salt: &[u8; 32],
    count: u32,
    random: &[u8],
    filler: &[u8],
    list: &mut [u8],
    values: &mut u64,
) -> u8
    ensures { DoesListed built image.old (change from old.now to
        (slot_input new.now salt.now count random.now) filler.now list.old)
        result image.new list.old list.new values.new }
{
    let input = SlotInput {
        passphrase: new,
        salt,
        count,
        random,
    };
    laying::lay_values(
        values,
        changing::change(image, from, old, to, input, filler, list),
    )
}

#[unsafe(no_mangle)]
pub extern "C" fn mivrozh_revoke(
    image: &mut [u8],
    slot: u8,
    filler: &[u8],
    list: &mut [u8],
    values: &mut u64,
) -> u8
    ensures { DoesListed built image.old (revoke slot filler.now list.old)
        result image.new list.old list.new values.new }
{
    laying::lay_values(values, revoking::revoke(image, slot, filler, list))
}

#[unsafe(no_mangle)]
pub extern "C" fn mivrozh_read(
    image: &[u8],
    key: &[u8],
    first: u64,
    units: u64,
    buffer: &mut [u8],
    values: &mut u64,
) -> u8
    ensures { DoesRead built image.now (read key.now first units buffer.old)
        result buffer.old buffer.new values.new }
{
    laying::lay_values(
        values,
        payload::read(image, key, PayloadUnit(first), PayloadUnit(units), buffer),
    )
}

#[unsafe(no_mangle)]
pub extern "C" fn mivrozh_write(
    image: &mut [u8],
    key: &[u8],
    first: u64,
    units: u64,
    buffer: &[u8],
    values: &mut u64,
) -> u8
    ensures { Does built image.old (write key.now first units buffer.now) result image.new
        values.new }
{
    laying::lay_values(
        values,
        payload::write(image, key, PayloadUnit(first), PayloadUnit(units), buffer),
    )
}

#[unsafe(no_mangle)]
pub extern "C" fn mivrozh_slots(image: &[u8], enabled: &mut [u8; 8]) -> u8
    ensures { Shows (slot_screen built image.now) result enabled.new }
{
    laying::lay_slots(enabled, screens::slots(image))
}

#[unsafe(no_mangle)]
pub extern "C" fn mivrozh_slot_details(
    image: &[u8],
    enabled: &mut [u8; 8],
    counts: &mut [u32; 8],
    starts: &mut [u32; 8],
    stripes: &mut [u32; 8],
) -> u8
    ensures { ShowsArrays (detail_screen built image.now)
        result enabled.new counts.new starts.new stripes.new }
{
    laying::lay_details(
        enabled,
        counts,
        starts,
        stripes,
        screens::slot_details(image),
    )
}
