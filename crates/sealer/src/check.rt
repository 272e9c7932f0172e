// Which sealers go on, and the checks of feeding and ending: 9, 5 and 6. They go by numbers alone.
ghost use Rattle.std.specs.Prelude.{◌≡◌};
ghost use Rattle.mode.specs.Feeding.{keeps};
ghost use Rattle.sealer.specs.Sealers.{going_on, feed_check, end_check};

use link::Refusal;

fn goes_on(rounds: usize, tag: usize, fed: usize) -> bool
    ensures { result ≡ going_on rounds tag fed }
{
    link::known_rounds(rounds) && link::from_to(4, 16, tag) && fed <= 16384
}

// How many bytes are kept once so many are fed.
#[tactic(auto, using(mode::proofs::Counts::pairs_are))]
pub fn kept(fed: usize) -> usize
    ensures { result ≡ keeps fed }
{
    fed - 32 * pairs::pairs_of(fed)
}

#[tactic(auto, unfolding(crate::specs::Sealers::feed_check))]
pub fn feed(
    rounds: usize,
    tag: usize,
    fed: usize,
    part: usize,
    room: usize,
) -> Result<usize, Refusal>
    ensures { result ≡ feed_check rounds tag fed part room }
{
    if !goes_on(rounds, tag, fed) {
        return Err(Refusal::Ended);
    }
    if 16384 - fed < part {
        return Err(Refusal::Length);
    }
    let due = 32 * pairs::pairs_of(kept(fed) + part);
    if room < due {
        return Err(Refusal::Room);
    }
    Ok(due)
}

#[tactic(auto, unfolding(crate::specs::Sealers::end_check))]
pub fn end(rounds: usize, tag: usize, fed: usize, room: usize) -> Result<usize, Refusal>
    ensures { result ≡ end_check rounds tag fed room }
{
    if !goes_on(rounds, tag, fed) {
        return Err(Refusal::Ended);
    }
    let due = kept(fed) + tag;
    if room < due {
        return Err(Refusal::Room);
    }
    Ok(due)
}
