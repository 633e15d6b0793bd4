// The record with one field set, by the field's number: what a caller may hand in who did not take the
// record from loading. The fields are numbered as tests/replay/calls.py lists them, those of one type
// together, and the value is read as a field of that type has it.
use crate::calls::Call;
use reads::i16_at;
use tables::Record;

// Each number stands here alone: an enum of the fields would list them twice.
pub(crate) fn changed(rec: Record, call: Call<'_>) -> Record {
    let mut r = rec;
    let size = call.size(8);
    let count = call.word(8);
    let code = call.short(8);
    let bound = i16_at(call.0, 0, 8, false);
    let byte = call.byte(8);
    let flag = byte != 0;
    match call.byte(1) {
        0 => r.props.records = size,
        1 => r.props.strings = size,
        2 => r.props.size = size,
        3 => r.metrics.records = size,
        4 => r.bitmaps.offsets = size,
        5 => r.bitmaps.bits = size,
        6 => r.bitmaps.size = size,
        7 => r.codes.entries = size,
        8 => r.codes.size = size,
        9 => r.names.offsets = size,
        10 => r.names.strings = size,
        11 => r.names.size = size,
        12 => r.props.count = count,
        13 => r.metrics.count = count,
        14 => r.bitmaps.count = count,
        15 => r.names.count = count,
        16 => r.codes.low2 = code,
        17 => r.codes.high2 = code,
        18 => r.codes.low1 = code,
        19 => r.codes.high1 = code,
        20 => r.codes.default = code,
        21 => r.accel.maxbounds.width = bound,
        22 => r.accel.maxbounds.ascent = bound,
        23 => r.accel.maxbounds.descent = bound,
        24 => r.bitmaps.pad = byte,
        25 => r.bitmaps.unit = byte,
        26 => r.metrics.big = flag,
        27 => r.metrics.compressed = flag,
        28 => r.bitmaps.big = flag,
        29 => r.bitmaps.top = flag,
        30 => r.codes.big = flag,
        _ => {}
    }
    r
}
