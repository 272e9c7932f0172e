// What a call names, once checks 10 and 8 have passed: its edition of AES-OTR, and in the third its form.
ghost use Rattle.std.specs.Prelude.{◌≡◌};
ghost use Rattle.mode.specs.Form.{form_of};
ghost use Rattle.mode.specs.Edition.{edition_of, form_in};

// The two forms of associated data (source document 000, section 1.1).
#[derive(Clone, Copy, PartialEq, Eq)]
pub enum Form {
    Parallel,
    Serial,
}

impl Form {
    // The form with this number in a call.
    pub fn numbered(form: usize) -> Form
        ensures { result ≡ form_of form }
    {
        match form {
            0 => Form::Parallel,
            _ => Form::Serial,
        }
    }
}

// AES-OTR v1 (source document 003), here with parallel data alone, and v3.1 (source document 000) in a form.
#[derive(Clone, Copy, PartialEq, Eq)]
pub enum Edition {
    V1,
    V3(Form),
}

impl Edition {
    // The edition with this number in a call, in the form with the other.
    pub fn numbered(edition: usize, form: usize) -> Edition
        ensures { result ≡ edition_of edition form }
    {
        match edition {
            1 => Edition::V1,
            _ => Edition::V3(Form::numbered(form)),
        }
    }

    // How the edition takes its data.
    pub fn form(self) -> Form
        ensures { result ≡ form_in self }
    {
        match self {
            Edition::V1 => Form::Parallel,
            Edition::V3(form) => form,
        }
    }
}
