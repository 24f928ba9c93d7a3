// Where in a piece of a delivery an event begins.
use wire::reading::read_event;

// The place where the event begins behind which so many bytes are left: the last that was read of the piece.
pub(crate) fn begin_of(piece: &[u8], left: usize) -> usize {
    let mut rest = piece;
    // Counted: each event has a byte at least, so a piece has no more events than bytes.
    for _ in 0..piece.len() {
        let begin = piece.len().saturating_sub(rest.len());
        let Some((_, behind)) = read_event(rest) else {
            return begin;
        };
        if behind.len() <= left {
            return begin;
        }
        rest = behind;
    }
    0
}
