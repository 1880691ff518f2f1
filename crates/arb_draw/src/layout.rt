//! Where things stand in a picture, in tenths of a pixel at its full width.

ghost use Rattle.std.specs.Prelude.{◌≡◌};
ghost use Rattle.arb_draw.specs.Layout.{axis_y, bottom, cores_top, height, key_y, legend_x, legend_y, panel_y, row_y, value_y};

use crate::bar::ManagedCore;

/// Where the time begins.
pub(crate) const LEFT: u32 = 1_500;

/// How wide the time is.
pub(crate) const PLOT: u32 = 10_300;

/// How much is drawn, which decides how high a picture is.
#[derive(Clone, Copy, Debug, PartialEq, Eq)]
pub struct Layout {
    /// How many managed cores.
    pub managed: u8,
    /// How many sockets.
    pub sockets: u8,
    /// How many applications.
    pub apps: u8,
}

impl Layout {
    /// The left edge of an entry of the legend.
    pub(crate) fn legend_x(index: u8) -> u32
        ensures { result ≡ legend_x index }
    {
        200 + 2_900 * u32::from(index % 4)
    }

    /// The top of an entry of the legend, of which four stand side by side.
    pub(crate) fn legend_y(index: u8) -> u32
        ensures { result ≡ legend_y index }
    {
        480 + 230 * u32::from(index / 4)
    }

    /// The top of the key to the lines.
    pub(crate) fn key_y(self) -> u32
        ensures { result ≡ key_y self }
    {
        500 + 230 * ((u32::from(self.apps) + 3) / 4)
    }

    /// The top of the cores.
    pub(crate) fn cores_top(self) -> u32
        ensures { result ≡ cores_top self }
    {
        self.key_y() + 480
    }

    /// The base line of what is said above the cores.
    pub(crate) fn axis_y(self) -> u32
        ensures { result ≡ axis_y self }
    {
        self.key_y() + 430
    }

    /// The top of a core's row.
    pub(crate) fn row_y(self, core: &ManagedCore) -> u32
        ensures { result ≡ row_y self core.now }
    {
        self.cores_top() + 220 * u32::from(core.position) + 280 * (u32::from(core.socket) + 1)
    }

    /// The top of the panel of an application, counted among those that are drawn; one more is the bottom.
    pub(crate) fn panel_y(self, index: u8) -> u32
        ensures { result ≡ panel_y self index }
    {
        let cores = 220 * u32::from(self.managed) + 280 * u32::from(self.sockets);
        self.cores_top() + cores + 150 + 640 * u32::from(index)
    }

    /// The lowest line.
    pub(crate) fn bottom(self) -> u32
        ensures { result ≡ bottom self }
    {
        self.panel_y(self.apps)
    }

    /// How high the picture is.
    pub(crate) fn height(self) -> u32
        ensures { result ≡ height self }
    {
        self.bottom() + 150
    }
}

/// The height of a value above a base line, where the highest value is `peak`.
pub(crate) fn value_y(base: u32, peak: u16, value: u16) -> u32
    ensures { result ≡ value_y base peak value }
{
    base.saturating_sub(u32::from(value) * 400 / u32::from(peak.max(1)))
}
