// Checks 10 and 8, and then 1 to 6 in the order of their numbers. They go by the numbers of the edition and the form (`call_check` has an
// answer for any), by lengths, and by a prepared key's round count. Whether the key is known is handed in: raw and prepared keys differ there.
ghost use Rattle.std.specs.Prelude.{◌≡◌};
ghost use Rattle.link.specs.Checks.{from_to as between, known_edition, last_form, known_key, known_rounds, call_check, seal_next, open_next};

use crate::answer::Refusal;

// Whether a is from l to h.
pub fn from_to(l: usize, h: usize, a: usize) -> bool
    ensures { result ≡ between l h a }
{
    l <= a && a <= h
}

// Check 10.
pub fn known_edition(edition: usize) -> bool
    ensures { result ≡ known_edition edition }
{
    matches!(edition, 1 | 3)
}

// For check 8, the last form that an edition has.
pub fn last_form(edition: usize) -> usize
    ensures { result ≡ last_form edition }
{
    match edition {
        1 => 0,
        _ => 1,
    }
}

// Check 1, for a raw key of so many bytes.
pub fn known_key(key: usize) -> bool
    ensures { result ≡ known_key key }
{
    aes::key_size(key).is_some()
}

// Check 1, for a prepared key of so many rounds.
pub fn known_rounds(rounds: usize) -> bool
    ensures { result ≡ known_rounds rounds }
{
    matches!(rounds, 10 | 12 | 14)
}

// The checks that all calls share. Check 1 has been looked at: the key is known, or it is not.
#[tactic(auto, unfolding(crate::specs::Checks::call_check))]
pub fn call_check(
    edition: usize,
    form: usize,
    known: bool,
    nonce: usize,
    tag: usize,
    ad: usize,
) -> Result<(), Refusal>
    ensures { result ≡ call_check edition form known nonce tag ad (Ok tt) }
{
    if !known_edition(edition) {
        return Err(Refusal::Edition);
    }
    if last_form(edition) < form {
        return Err(Refusal::Form);
    }
    if !known {
        return Err(Refusal::Key);
    }
    if !from_to(1, 15, nonce) {
        return Err(Refusal::Nonce);
    }
    if !from_to(4, 16, tag) {
        return Err(Refusal::Tag);
    }
    if 4096 < ad {
        return Err(Refusal::Data);
    }
    Ok(())
}

pub fn seal_check(
    edition: usize,
    form: usize,
    known: bool,
    nonce: usize,
    tag: usize,
    ad: usize,
    message: usize,
    room: usize,
) -> Result<usize, Refusal>
    ensures { result ≡ call_check edition form known nonce tag ad (seal_next tag message room) }
{
    call_check(edition, form, known, nonce, tag, ad)?;
    if 16384 < message {
        return Err(Refusal::Length);
    }
    if room < message + tag {
        return Err(Refusal::Room);
    }
    Ok(message + tag)
}

pub fn open_check(
    edition: usize,
    form: usize,
    known: bool,
    nonce: usize,
    tag: usize,
    ad: usize,
    sealed: usize,
    room: usize,
) -> Result<usize, Refusal>
    ensures { result ≡ call_check edition form known nonce tag ad (open_next tag sealed room) }
{
    call_check(edition, form, known, nonce, tag, ad)?;
    if !from_to(tag, 16384 + tag, sealed) {
        return Err(Refusal::Length);
    }
    if room < sealed - tag {
        return Err(Refusal::Room);
    }
    Ok(sealed - tag)
}
