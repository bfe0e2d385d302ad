//! Which requests are carried out today.
ghost use Rattle.std.specs.Prelude.{◌≡◌};
ghost use Rattle.spl_driver.specs.Built.{is_plain};

use command_line::RunOptions;

/// Whether a run is asked for no width, workers or capacity.
pub fn is_plain(options: &RunOptions) -> bool
    ensures { result ≡ is_plain options.now }
{
    options.width.is_none() && options.workers.is_none() && options.capacity.is_none()
}
