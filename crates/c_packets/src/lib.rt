// What C is told of packets, trees, servers, stamps and the clock. Here are the structs of include/trawlbeacon.h that
// are answers, and each answer of the library as one of them. Where a server was found is told by its export.
// `c_evidence` has the structs of piles. No function has a `requires`. Each struct has the header's name, `tb_request`
// for `TbRequest`. Its code is document 01's number, 0 where nothing was refused, and `at` the byte place that it
// carries, 0 where it carries none; what else stands beside a refusal is zeros.
#![tactic(auto)]

mod batching;
mod building;
mod clocking;
mod judging;
mod numbers;
mod reading;
mod stamping;
mod writing;

pub use building::rows_told;
pub use clocking::{Columns, rows};
pub use judging::verdict_with;
pub use numbers::{number, yes};

// What `tb_read_request` answers.
#[repr(C)]
#[derive(Clone, Copy)]
pub struct TbRequest {
    pub code: u32,
    pub with_srv: u32,
    pub at: u64,
    pub nonc: [u8; 32],
    pub srv: [u8; 32],
}

// What `tb_read_response` answers.
#[repr(C)]
#[derive(Clone, Copy)]
pub struct TbResponse {
    pub code: u32,
    pub indx: u32,
    pub at: u64,
    pub midp: u64,
    pub radi: u32,
    pub nonc: [u8; 32],
    pub root: [u8; 32],
}

// What `tb_signed_parts` answers.
#[repr(C)]
#[derive(Clone, Copy)]
pub struct TbParts {
    pub code: u32,
    pub at: u64,
    pub signature: [u8; 64],
    pub delegation: [u8; 64],
    pub pubk: [u8; 32],
}

// What the writers of bytes answer: how many they wrote.
#[repr(C)]
#[derive(Clone, Copy)]
pub struct TbWrote {
    pub code: u32,
    pub at: u64,
    pub length: u64,
}

// What `tb_answer_batch` answers: how many packets were answered.
#[repr(C)]
#[derive(Clone, Copy)]
pub struct TbBatch {
    pub code: u32,
    pub at: u64,
    pub answered: u64,
}

// What `tb_check_response` answers.
#[repr(C)]
#[derive(Clone, Copy)]
pub struct TbVerdict {
    pub code: u32,
    pub radi: u32,
    pub at: u64,
    pub midp: u64,
    pub low: u64,
    pub high: u64,
    pub mint: u64,
    pub maxt: u64,
    pub pubk: [u8; 32],
}

// What `tb_root` answers.
#[repr(C)]
#[derive(Clone, Copy)]
pub struct TbRooted {
    pub code: u32,
    pub depth: u32,
    pub root: [u8; 32],
}

// What `tb_path` and `tb_path_from` answer.
#[repr(C)]
#[derive(Clone, Copy)]
pub struct TbPlaced {
    pub code: u32,
    pub indx: u32,
    pub depth: u32,
}

// What `tb_rows` answers.
#[repr(C)]
#[derive(Clone, Copy)]
pub struct TbLaid {
    pub code: u32,
    pub depth: u32,
    pub length: u64,
}

// What `tb_find_server` answers: the list, 0 for the owner's and 1 for the shipped, and where the record begins in it.
#[repr(C)]
#[derive(Clone, Copy)]
pub struct TbFound {
    pub code: u32,
    pub list: u32,
    pub offset: u64,
}

// What `tb_old_window` answers.
#[repr(C)]
#[derive(Clone, Copy)]
pub struct TbOld {
    pub code: u32,
    pub low: u64,
    pub high: u64,
}

// What `tb_clock_now` answers.
#[repr(C)]
#[derive(Clone, Copy)]
pub struct TbTime {
    pub code: u32,
    pub stopped: u32,
    pub low: u64,
    pub high: u64,
    pub counted: u64,
    pub agree: u64,
    pub suspects: u64,
}
