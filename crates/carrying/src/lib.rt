// Carrying a record over to the other edition, and back (document 02, wish 8): the old side is opened, and what it held is sealed anew on
// the new side. The caller lends the work buffer that the message passes through, and has it back cleared. The call asks nothing of its
// caller; what it promises is in specs/Promises.antt. Edition and forms are numbers, since any number has its answer (`Carries`).
#![tactic(auto)]

ghost use Rattle.std.specs.Prelude.{◌≡◌};
ghost use Rattle.carrying.specs.Checks.{passed, carry_check};
ghost use Rattle.carrying.specs.Named.{named};
ghost use Rattle.carrying.specs.Promises.{CarriesBy, Carries};

use link::{Answer, Done};

mod check;

// Which side an answer speaks of. No `Option`: `Carries` names the three.
#[derive(Clone, Copy)]
pub enum Side {
    Neither,
    Old,
    New,
}

// What a call names of a side. The edition is named of the old side alone, that of the new one being the other; both have the tag length
// that is named once.
#[derive(Clone, Copy)]
pub struct Settings<'a> {
    pub form: usize,
    pub key: &'a [u8],
    pub nonce: &'a [u8],
    pub ad: &'a [u8],
}

#[derive(Clone, Copy)]
pub struct Carried {
    pub side: Side,
    pub answer: Answer,
}

// The old side is what `sealed` was sealed with; the new one is what it is sealed with anew.
pub fn carry(
    edition: usize,
    old: &Settings,
    tag: usize,
    sealed: &[u8],
    new: &Settings,
    out: &mut [u8],
    work: &mut [u8],
) -> Carried
    ensures { Carries edition (named old.now) tag sealed.now (named new.now) out.old work.old result out.new work.new }
{
    let checked = check::carry_check(edition, old, tag, sealed.len(), new, out.len(), work.len());
    if let Err(stopped) = checked {
        return Carried {
            side: stopped.side,
            answer: Err(stopped.refusal),
        };
    }
    carry_over(edition, old, tag, sealed, new, out, work)
}

// The same once the checks have passed. The old side opens before the new side is sealed.
fn carry_over(
    edition: usize,
    old: &Settings,
    tag: usize,
    sealed: &[u8],
    new: &Settings,
    out: &mut [u8],
    work: &mut [u8],
) -> Carried
    requires { carry_check edition (named old.now) tag sealed.now (named new.now) out.old work.old ≡ passed }
    ensures { CarriesBy edition (named old.now) tag sealed.now (named new.now) out.old work.old result out.new work.new passed }
{
    let opened = link::open(
        edition, old.form, old.key, old.nonce, old.ad, sealed, tag, work,
    );
    let Ok(done) = opened else {
        return Carried {
            side: Side::Old,
            answer: opened,
        };
    };
    let edition2 = check::other_edition(edition);
    let message = &work[..done.length];
    let anew = link::seal(
        edition2, new.form, new.key, new.nonce, new.ad, message, tag, out,
    );
    lists::clear(work, done.length);
    Carried {
        side: Side::Neither,
        answer: Ok(Done {
            length: sealed.len(),
            runs: done.runs + link::runs(anew),
        }),
    }
}
