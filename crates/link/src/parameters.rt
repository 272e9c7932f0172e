// The four named parameter sets (source document 000, section 1.2): the numbers that a call takes, its edition and form among them. The
// sets are v3.1's: what their names end in is not the edition.
#[derive(Clone, Copy)]
pub struct Parameters {
    pub edition: usize,
    // 0 is parallel, 1 serial.
    pub form: usize,
    pub key: usize,
    pub nonce: usize,
    pub tag: usize,
}

impl Parameters {
    pub const AES128OTRPV1: Parameters = Parameters {
        edition: 3,
        form: 0,
        key: 16,
        nonce: 12,
        tag: 16,
    };

    pub const AES128OTRSV1: Parameters = Parameters {
        edition: 3,
        form: 1,
        key: 16,
        nonce: 12,
        tag: 16,
    };

    pub const AES256OTRPV1: Parameters = Parameters {
        edition: 3,
        form: 0,
        key: 32,
        nonce: 12,
        tag: 16,
    };

    pub const AES256OTRSV1: Parameters = Parameters {
        edition: 3,
        form: 1,
        key: 32,
        nonce: 12,
        tag: 16,
    };
}
