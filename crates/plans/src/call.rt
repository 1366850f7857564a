//! The calls on an open vault, with the numbers that they are given: bare numbers, of which a wrong one is refused by its position.

#[derive(Clone, Copy)]
pub enum Call {
    Login {
        seat: u64,
        user: u64,
        label: u64,
    },
    Fork {
        seat: u64,
        new: u64,
    },
    End {
        seat: u64,
    },
    Kill {
        seat: u64,
        other: u64,
    },
    Execute {
        seat: u64,
        object: u64,
    },
    Open {
        seat: u64,
        object: u64,
        mode: u64,
        truncate: u64,
    },
    Close {
        seat: u64,
        object: u64,
        mode: u64,
    },
    Read {
        seat: u64,
        object: u64,
    },
    Write {
        seat: u64,
        object: u64,
        length: u64,
    },
    Create {
        seat: u64,
        object: u64,
        home: u64,
        kind: u64,
    },
    Unlink {
        seat: u64,
        object: u64,
    },
}
