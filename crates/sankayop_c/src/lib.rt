// The C interface: the calls of `sankayop`, exported under their names. A slice passes as a pointer and then a length.
#![tactic(auto)]

ghost use Rattle.std.specs.Prelude.{◌≡◌, length};
ghost use Rattle.map.specs.declared.Side.TheVariants.{Forward, Backward};
ghost use Rattle.text.specs.Text.{read_text, map_after};
ghost use Rattle.bench.specs.Calls.{open_said, open_words, turn_said, turn_words};
ghost use Rattle.bench.specs.Areas.{area_said, area_mask};
ghost use Rattle.bench.specs.Routes.{route_said, route_buffer};
ghost use Rattle.sankayop.specs.Packed.{packed};

// Reads a text into the map.
#[unsafe(no_mangle)]
pub extern "C" fn sankayop_read(text: &[u8], map: &mut [u32]) -> u64
    ensures answer { result ≡ packed (read_text (length map.old) text.now) }
    ensures map { map.new ≡ map_after text.now map.old }
{
    sankayop::sankayop_read(text, map)
}

// Opens the bench for one order.
#[unsafe(no_mangle)]
pub extern "C" fn sankayop_open(
    map: &[u32],
    n: u32,
    m: u32,
    start: u32,
    target: u32,
    stretch: u32,
    bench: &mut [u32],
) -> u64
    ensures answer { result ≡ packed (open_said map.now n m start target stretch bench.old) }
    ensures bench { bench.new ≡ open_words map.now n m start target stretch bench.old }
{
    sankayop::sankayop_open(map, n, m, start, target, stretch, bench)
}

// One turn of the forward half.
#[unsafe(no_mangle)]
pub extern "C" fn sankayop_forward(map: &[u32], n: u32, m: u32, bench: &mut [u32]) -> u64
    ensures answer { result ≡ packed (turn_said Forward map.now n m bench.old) }
    ensures bench { bench.new ≡ turn_words Forward map.now n m bench.old }
{
    sankayop::sankayop_forward(map, n, m, bench)
}

// One turn of the backward half.
#[unsafe(no_mangle)]
pub extern "C" fn sankayop_backward(map: &[u32], n: u32, m: u32, bench: &mut [u32]) -> u64
    ensures answer { result ≡ packed (turn_said Backward map.now n m bench.old) }
    ensures bench { bench.new ≡ turn_words Backward map.now n m bench.old }
{
    sankayop::sankayop_backward(map, n, m, bench)
}

// Fills the first n bytes of the mask: 0 unmarked, 1 in B only, 2 also in BL.
#[unsafe(no_mangle)]
pub extern "C" fn sankayop_area(
    map: &[u32],
    n: u32,
    m: u32,
    bench: &[u32],
    locality: u32,
    mask: &mut [u8],
) -> u64
    ensures answer { result ≡ packed (area_said map.now n m bench.now locality mask.old) }
    ensures mask { mask.new ≡ area_mask map.now n m bench.now locality mask.old }
{
    sankayop::sankayop_area(map, n, m, bench, locality, mask)
}

// Fills the buffer with the route through a marked crossing.
#[unsafe(no_mangle)]
pub extern "C" fn sankayop_route(
    map: &[u32],
    n: u32,
    m: u32,
    bench: &[u32],
    crossing: u32,
    route: &mut [u32],
) -> u64
    ensures answer { result ≡ packed (route_said map.now n m bench.now crossing route.old) }
    ensures route { route.new ≡ route_buffer map.now n m bench.now crossing route.old }
{
    sankayop::sankayop_route(map, n, m, bench, crossing, route)
}
