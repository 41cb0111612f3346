// A whole batch in one call, for hosts.
ghost use Rattle.std.specs.Prelude.{◌≡◌, length};
ghost use Rattle.server_batch.specs.Batch.{batch};
ghost use Rattle.server_batch.specs.Answering.{batch_code, batch_answer, LeftBy};
ghost use Rattle.c_packets.specs.Batching.{tb_batch};

use c_packets::TbBatch;

// The answers to the packets that get one, each at the front of its room, and their lengths.
#[unsafe(no_mangle)]
pub extern "C" fn tb_answer_batch(
    packets: &[u8],
    slot: usize,
    lengths: &[u32],
    srv: &[u8; 32],
    cert: &[u8],
    seed: &[u8; 32],
    midp: u64,
    radi: u32,
    rows: &mut [u8],
    out: &mut [u8],
    room: usize,
    out_lengths: &mut [u32],
) -> TbBatch
    ensures value { result
        ≡ tb_batch
        (batch_answer (batch packets.now slot lengths.now srv.now) cert.now
        (batch_code (batch packets.now slot lengths.now srv.now) cert.now
        seed.now midp radi (length rows.old) (length out.old) room
        (length out_lengths.old))) }
    ensures left_by { LeftBy (batch packets.now slot lengths.now srv.now) cert.now
        seed.now midp radi room rows.old out.old out_lengths.old result.code
        rows.new out.new out_lengths.new }
{
    server_batch::answer_batch(
        packets,
        slot,
        lengths,
        *srv,
        cert,
        *seed,
        midp,
        radi,
        rows,
        out,
        room,
        out_lengths,
    )
    .into()
}
