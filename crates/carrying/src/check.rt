// The checks of both sides, in the order of document 02's wish 8. Edition and forms are numbers, since any has its answer (`Carries`).
ghost use Rattle.std.specs.Prelude.{◌≡◌, not, ◌≤◌, length};
ghost use Rattle.lists.specs.Same.{same};
ghost use Rattle.carrying.specs.Checks.{other, old_check, new_check, room_check, passed, of};
ghost use Rattle.carrying.specs.declared.Side.TheVariants.{Neither, Old, New};

use crate::{Settings, Side};
use link::Refusal;

// The first check that failed, and its side.
#[derive(Clone, Copy)]
pub struct Stopped {
    pub side: Side,
    pub refusal: Refusal,
}

pub fn other_edition(edition: usize) -> usize
    ensures { result ≡ other edition }
{
    match edition {
        1 => 3,
        _ => 1,
    }
}

// The old side's 10, 8 and 1 to 5.
fn old_check(edition: usize, old: &Settings, tag: usize, sealed: usize) -> Result<(), Refusal>
    ensures { result ≡ old_check edition old.now.form (length old.now.key.now) (length old.now.nonce.now) tag (length old.now.ad.now) sealed }
{
    let known = link::known_key(old.key.len());
    link::call_check(edition, old.form, known, old.nonce.len(), tag, old.ad.len())?;
    if !link::from_to(tag, 16384 + tag, sealed) {
        return Err(Refusal::Length);
    }
    Ok(())
}

// The new side's 8, 1, 2 and 4. Its edition is one, and the tag length has passed with the old side's.
fn new_check(edition: usize, new: &Settings, tag: usize) -> Result<(), Refusal>
    ensures { result ≡ new_check edition new.now.form (length new.now.key.now) (length new.now.nonce.now) tag (length new.now.ad.now) }
{
    let known = link::known_key(new.key.len());
    let edition2 = other_edition(edition);
    link::call_check(
        edition2,
        new.form,
        known,
        new.nonce.len(),
        tag,
        new.ad.len(),
    )
}

// 6, and then 11. The tag is no longer than the record.
fn room_check(
    tag: usize,
    sealed: usize,
    room: usize,
    work: usize,
    key: &[u8],
    key2: &[u8],
) -> Result<(), Refusal>
    requires { tag ≤ sealed }
    ensures { result ≡ room_check tag sealed room work (not (same key.now key2.now)) }
{
    if room < sealed {
        return Err(Refusal::Room);
    }
    if work < sealed - tag {
        return Err(Refusal::Room);
    }
    if lists::equal(key, key2) {
        return Err(Refusal::SameKey);
    }
    Ok(())
}

// The checks of a side: where one fails, it is of that side.
fn on(side: Side, checks: Result<(), Refusal>) -> Result<(), Stopped>
    ensures { result ≡ of side checks passed }
{
    checks.map_err(|refusal| Stopped { side, refusal })
}

// All of them.
pub fn carry_check(
    edition: usize,
    old: &Settings,
    tag: usize,
    sealed: usize,
    new: &Settings,
    room: usize,
    work: usize,
) -> Result<(), Stopped>
    ensures { result ≡ of Old (old_check edition old.now.form (length old.now.key.now) (length old.now.nonce.now) tag (length old.now.ad.now) sealed) (of New (new_check edition new.now.form (length new.now.key.now) (length new.now.nonce.now) tag (length new.now.ad.now)) (of Neither (room_check tag sealed room work (not (same old.now.key.now new.now.key.now))) passed)) }
{
    on(Side::Old, old_check(edition, old, tag, sealed))?;
    on(Side::New, new_check(edition, new, tag))?;
    on(
        Side::Neither,
        room_check(tag, sealed, room, work, old.key, new.key),
    )
}
