// The calls, each on the lists of a request.
use array::answer::Lengths;
use array::kind::Kind;
use array::refusal::Refusal;
use decode_interleaved::vlen_v2;
use encode_interleaved::write;
use partial::vlen_partial;
use requests::asked::head_kind;
use requests::call::Call;
use requests::{Request, start_of};
use responses::lent::LentArray;
use responses::told::{offsets_told, ragged_told, values_told};
use text::scan::number_at;
use valid::numbers;

// The calls that take a kind.
fn run_kind(
    call: Call,
    kind: Kind,
    q: Request<'_>,
    out: &mut LentArray<'_>,
) -> Result<Lengths, Refusal> {
    match call {
        Call::Encode => values_told(encode::encode(kind, q.shape, q.array, out.values)),
        Call::EncodeInterleaved => values_told(write::encode_interleaved(
            kind, q.shape, q.array, out.values,
        )),
        Call::Decode => decode::decode(
            kind,
            q.shape,
            q.array.values,
            out.masks,
            out.values,
            out.offsets,
        ),
        Call::Generate => generate::generate(
            kind,
            q.shape,
            start_of(q.subset),
            out.masks,
            out.values,
            out.offsets,
        ),
        Call::GuestRead => guest_read::guest_read(
            kind,
            q.shape,
            q.rights,
            q.array,
            out.masks,
            out.values,
            out.offsets,
        ),
        Call::Extract => extract::extract(
            kind,
            q.shape,
            q.subset,
            q.array,
            out.masks,
            out.values,
            out.offsets,
        ),
        _ => merge::merge(
            kind,
            q.shape,
            q.subset,
            q.array,
            out.masks,
            out.values,
            out.offsets,
        ),
    }
}

fn partial_decode(q: Request<'_>, out: &mut LentArray<'_>) -> Result<Lengths, Refusal> {
    let (width, place) = numbers::index_from_numbers(number_at(q.head, 0), number_at(q.head, 1))?;
    ragged_told(vlen_partial::partial_decode(
        width,
        place,
        q.shape,
        q.subset,
        q.array.values,
        out.values,
        out.offsets,
    ))
}

// A call, on the lists of a request and on the outputs lent to it.
pub fn run(call: Call, q: Request<'_>, out: &mut LentArray<'_>) -> Result<Lengths, Refusal> {
    let first = number_at(q.head, 0);
    match call {
        Call::DecodeInterleaved => ragged_told(vlen_v2::decode_interleaved(
            first,
            q.array.values,
            out.values,
            out.offsets,
        )),
        Call::PartialDecode => partial_decode(q, out),
        Call::ReverseEndianness => values_told(endian::reverse_endianness(
            first as usize,
            out.values,
        )),
        Call::SubsetCells => offsets_told(subset::subset_cells(q.shape, q.subset, out.offsets)),
        Call::Arrangement => arrangement::arrangement(
            first,
            number_at(q.head, 1),
            number_at(q.head, 2),
            out.masks,
            out.values,
            out.offsets,
        ),
        _ => run_kind(call, head_kind(q.head)?, q, out),
    }
}
