// What is asked of the numbers of a resource.
#![tactic(auto)]

ghost use Rattle.std.specs.Prelude.{◌≡◌, not, ◌&&◌, ◌||◌, eqb};
ghost use Rattle.rules.specs.Numbers.{most_layers};
ghost use Rattle.rules.specs.Shapes.{full_chain};
ghost use Rattle.rules.specs.Packets.{backed};
ghost use Rattle.rules.specs.Loaded.{between, good_pitch};

use rules::Shape;
use rules::numbers::MOST_LAYERS;
use texture_shapes::chain_reaches;
use texture_shapes::formats::minimum_pitch;

// Whether a size, by its halves, is not 0.
pub fn has_size(low: u32, high: u32) -> bool
    ensures { result ≡ not (eqb low 0 && eqb high 0) }
{
    if low != 0 {
        return true;
    }
    high != 0
}

// Whether there are mips, and no more than the full chain.
pub fn good_mips(width: u32, height: u32, mips: u32) -> bool
    ensures { result ≡ between 1 (full_chain width height) mips }
{
    if mips < 1 {
        return false;
    }
    chain_reaches(width, height, mips)
}

// Whether there are layers, and not too many.
pub fn good_layers(layers: u32) -> bool
    ensures { result ≡ between 1 most_layers layers }
{
    if layers < 1 {
        return false;
    }
    layers <= MOST_LAYERS
}

// Whether the pitch goes with the backing: at least the minimum, and none for a texture of the host.
pub fn good_pitch(s: Shape, pitch: u32, backing: u32) -> bool
    ensures { result ≡ good_pitch s pitch backing }
{
    if backing == 0 {
        return pitch == 0;
    }
    minimum_pitch(s.format, s.width) <= pitch as u64
}

// Whether the offset goes with the backing.
pub fn good_offset(backing: u32, offset: u32) -> bool
    ensures { result ≡ (backed backing || eqb offset 0) }
{
    if backing != 0 {
        return true;
    }
    offset == 0
}
