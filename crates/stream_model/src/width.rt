//! How many replicas a region has.
ghost use Rattle.std.specs.Prelude.{◌≡◌};
ghost use Rattle.stream_model.specs.Regions.{width_of};

use crate::plan::Region;

/// The number of a region's channels, at a width of the run.
pub fn width_of(region: &Region, width: u32) -> u32
    ensures { result ≡ width_of region.now width }
{
    let Region {
        ops: _,
        key: _,
        merge: _,
    } = region;
    width
}
