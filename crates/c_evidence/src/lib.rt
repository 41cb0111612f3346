// What C is told of the evidence, which is piles, reports and walks, and of a response's two signatures: structs and
// answers as in `c_packets`. Beside a refusal stand zeros, but for the place of a record. No function has a `requires`.
#![tactic(auto)]

mod piling;
mod publishing;
mod signing;
mod walking;

pub use signing::answers_told;

// What `tb_judge` answers: what is said of one record, with its place.
#[repr(C)]
#[derive(Clone, Copy)]
pub struct TbJudged {
    pub code: u32,
    pub radi: u32,
    pub place: u64,
    pub at: u64,
    pub midp: u64,
    pub low: u64,
    pub high: u64,
    pub mint: u64,
    pub maxt: u64,
    pub pubk: [u8; 32],
}

// What `tb_check_report` answers: the place of the record that is to blame for the code, or the two records that
// contradict.
#[repr(C)]
#[derive(Clone, Copy)]
pub struct TbReported {
    pub code: u32,
    pub place: u64,
    pub at: u64,
    pub first: u64,
    pub second: u64,
}

// What `tb_cut_run` answers: the places of the first and the last record of the run.
#[repr(C)]
#[derive(Clone, Copy)]
pub struct TbCut {
    pub code: u32,
    pub first: u64,
    pub last: u64,
}

// What `tb_read_report` answers: how many records stand at the front of the buffer.
#[repr(C)]
#[derive(Clone, Copy)]
pub struct TbRecords {
    pub code: u32,
    pub records: u64,
}

// What `tb_write_report` and `tb_write_signed_report` answer: the place of the record that is to blame for the code, or
// how long the text is.
#[repr(C)]
#[derive(Clone, Copy)]
pub struct TbPublished {
    pub code: u32,
    pub place: u64,
    pub at: u64,
    pub length: u64,
}

// What `tb_cut_text` and `tb_cut_signed_text` answer: the places of the first and the last record of the run, and how
// long its text is.
#[repr(C)]
#[derive(Clone, Copy)]
pub struct TbForwarded {
    pub code: u32,
    pub first: u64,
    pub last: u64,
    pub length: u64,
}

// What `tb_walk_ask` answers: which server is asked next, and with which nonce.
#[repr(C)]
#[derive(Clone, Copy)]
pub struct TbAsked {
    pub code: u32,
    pub server: u64,
    pub nonce: [u8; 32],
}

// What `tb_walk_take` and `tb_walk_take_signed` answer: how the walk stands, at its end the two records that
// contradict, and the window of the response that was taken.
#[repr(C)]
#[derive(Clone, Copy)]
pub struct TbTook {
    pub code: u32,
    pub outcome: u32,
    pub at: u64,
    pub first: u64,
    pub second: u64,
    pub midp: u64,
    pub low: u64,
    pub high: u64,
    pub mint: u64,
    pub maxt: u64,
    pub radi: u32,
}
