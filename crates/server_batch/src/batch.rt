// A whole batch in one call.
ghost use Rattle.std.specs.Prelude.{◌≡◌, ◌+◌, ◌*◌, ◌≤◌, ◌<◌, length};
ghost use Rattle.tree_build.specs.Leaves.{most};
ghost use Rattle.server_batch.specs.Batch.{batch, longest};
ghost use Rattle.server_batch.specs.Answering.{batch_code, batch_answer, batch_number, LeftBy};
ghost use Rattle.server_batch.specs.Steps.{Enough, Left};

use super::choosing::Chosen;
use super::fitting::{answer_length, shortest};
use super::laying::put_leaves;
use super::marking::mark;
use super::measuring::put_lengths;
use super::packets::Packets;
use super::refusing::{keys_code, sizes_code};
use super::service::Service;
use super::serving::serve;
use ed25519_sign::public_key;
use refusal::Refusal;
use tree_build::depth;

// The answers to a batch of which nothing is refused. Answers how many there are.
pub fn answer_all(
    packets: Packets<'_>,
    service: &Service<'_>,
    rows: &mut [u8],
    out: &mut [u8],
    marks: &mut [u32],
) -> usize
    requires { (0 < length packets.lengths.now)
        × (length packets.lengths.now ≤ most)
        × Enough (length packets.lengths.now) (length service.now.cert.now)
        (length packets.slots.now) packets.slot (length rows.old) (length out.old) service.now.room
        (length marks.old) }
    ensures { Left (batch packets.entry.slots.now packets.entry.slot packets.entry.lengths.now service.now.srv)
        (longest (batch packets.entry.slots.now packets.entry.slot packets.entry.lengths.now service.now.srv)
        (length service.now.cert.now))
        service.now.cert.now service.now.seed service.now.midp service.now.radi service.now.room
        rows.old out.old marks.old rows.new out.new marks.new result }
{
    mark(packets, service.srv, marks);
    let least = shortest(packets.lengths, marks, service.cert.len());
    let chosen = Chosen {
        packets,
        marks,
        least,
    };
    let k = put_leaves(chosen, rows);
    if k == 0 {
        put_lengths(packets.lengths, least, 0, marks);
        return 0;
    }
    serve(chosen, k, service, rows, out);
    let size = answer_length(depth(k), service.cert.len());
    put_lengths(packets.lengths, least, size as u32, marks);
    k
}

// The answers to a batch of packets, which are in slots of one size with their lengths beside them. Each answer is
// written to the front of its slot of room bytes, and its length to out_lengths, 0 where there is none. The rows of the
// tree are written to the front of rows. cert is the value of CERT, and seed that of the delegated key. Refused, in
// this order and before anything is written, with 7 for RADI 0; 4 to 7 for CERT and its DELE; 35; 11; 20; 19.
// The parameters are one by one those of `tb_answer_batch`: `batch-learnt` of server_batch_laws, by which the theorems
// speak of this call, names them in this order.
pub fn answer_batch(
    packets: &[u8],
    slot: usize,
    lengths: &[u32],
    srv: [u8; 32],
    cert: &[u8],
    seed: [u8; 32],
    midp: u64,
    radi: u32,
    rows: &mut [u8],
    out: &mut [u8],
    room: usize,
    out_lengths: &mut [u32],
) -> Result<usize, Refusal>
    ensures value { result
        ≡ batch_answer (batch packets.now slot lengths.now srv) cert.now
        (batch_code (batch packets.now slot lengths.now srv) cert.now seed midp radi
        (length rows.old) (length out.old) room (length out_lengths.old)) }
    ensures left_by { LeftBy (batch packets.now slot lengths.now srv) cert.now seed midp radi room
        rows.old out.old out_lengths.old (batch_number result) rows.new
        out.new out_lengths.new }
{
    let packets = Packets {
        slots: packets,
        slot,
        lengths,
    };
    // The key is kept by value from here on, so that what signs is the seed's own key whatever becomes of the caller's
    // bytes.
    let service = Service {
        srv,
        cert,
        seed,
        key: public_key(seed),
        midp,
        radi,
        room,
    };
    keys_code(&service)?;
    sizes_code(packets, &service, rows, out, out_lengths)?;
    Ok(answer_all(packets, &service, rows, out, out_lengths))
}
