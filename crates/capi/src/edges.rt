// The C interface of one edge and its shots.
ghost use Rattle.std.specs.Prelude.{◌≡◌};
ghost use Rattle.figure.specs.Figure.{figure};
ghost use Rattle.edge.specs.Promise.{edge_walked};
ghost use Rattle.capi.specs.EdgeLent.{edge_lent};

use edge::edge_shots;

// How many runs an edge has, with four numbers for each at the front of the buffer; or 2 to 5, 21, 23, 14.
#[unsafe(no_mangle)]
pub extern "C" fn pw_edge(
    corners: &[u16],
    rings: &[u16],
    edge: usize,
    shots: &[u16],
    runs: &mut [usize],
    count: &mut usize,
) -> u32
    ensures settled { edge_lent result count.new runs.new ≡ edge_walked (figure corners.now rings.now) edge shots.now runs.old }
{
    *count = 0;
    match edge_shots(corners, rings, edge, shots, runs) {
        Ok(n) => {
            *count = n;
            0
        }
        Err(why) => u32::from(why),
    }
}
