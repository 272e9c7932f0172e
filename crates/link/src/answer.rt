// What a call comes back with, and its number, its length and its runs: how many times the cipher ran (document 02, wish 6).
ghost use Rattle.std.specs.Prelude.{◌≡◌};
ghost use Rattle.link.specs.Answers.{number_of, length_of, runs_of};

// Done, with the number of bytes written, and how many times the cipher ran.
#[derive(Clone, Copy)]
pub struct Done {
    pub length: usize,
    pub runs: usize,
}

// The refusals 1 to 11 and 13, in the order of their numbers. Of these the cipher has run for 7 alone; 9 is a sealer's, 11 is for
// carrying over, and 13 for plans.
#[derive(Clone, Copy)]
pub enum Refusal {
    Key,
    Nonce,
    Tag,
    Data,
    Length,
    Room,
    Forged { runs: usize },
    Form,
    Ended,
    Edition,
    SameKey,
    Plan,
}

pub type Answer = Result<Done, Refusal>;

impl Refusal {
    pub fn number(self) -> usize
        ensures { result ≡ number_of (Err self) }
    {
        match self {
            Refusal::Key => 1,
            Refusal::Nonce => 2,
            Refusal::Tag => 3,
            Refusal::Data => 4,
            Refusal::Length => 5,
            Refusal::Room => 6,
            Refusal::Forged { .. } => 7,
            Refusal::Form => 8,
            Refusal::Ended => 9,
            Refusal::Edition => 10,
            Refusal::SameKey => 11,
            Refusal::Plan => 13,
        }
    }
}

// The three are public, with the promises that these definitions make.
pub fn number(answer: Answer) -> usize
    ensures { result ≡ number_of answer }
{
    match answer {
        Ok(_) => 0,
        Err(refusal) => refusal.number(),
    }
}

pub fn length(answer: Answer) -> usize
    ensures { result ≡ length_of answer }
{
    match answer {
        Ok(done) => done.length,
        Err(_) => 0,
    }
}

pub fn runs(answer: Answer) -> usize
    ensures { result ≡ runs_of answer }
{
    match answer {
        Ok(done) => done.runs,
        Err(Refusal::Forged { runs }) => runs,
        Err(_) => 0,
    }
}
