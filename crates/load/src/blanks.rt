// A record of noughts.
ghost use Rattle.std.specs.Prelude.{◌≡◌};
ghost use Rattle.load.specs.Gather.{no_metrics, blank};

use tables::{
    AcceleratorUnpacked, BitmapData, EncodingData, GlyphNameData, MetricsData, MetricsUnpacked,
    PropertiesData, Record,
};

// Metrics that are all 0.
pub fn no_metrics() -> MetricsUnpacked
    ensures { result ≡ no_metrics }
{
    MetricsUnpacked {
        left: 0,
        right: 0,
        width: 0,
        ascent: 0,
        descent: 0,
        attributes: 0,
    }
}

fn no_accelerators() -> AcceleratorUnpacked
    ensures { result ≡ blank.accel }
{
    let minbounds = no_metrics();
    let maxbounds = no_metrics();
    AcceleratorUnpacked {
        format: 0,
        noOverlap: 0,
        constantMetrics: 0,
        terminalFont: 0,
        constantWidth: 0,
        inkInside: 0,
        inkMetrics: 0,
        drawDirection: 0,
        padding: 0,
        fontAscent: 0,
        fontDescent: 0,
        maxOverlap: 0,
        minbounds,
        maxbounds,
    }
}

// The record whose every number is 0: what stands where there is no font.
pub fn blank() -> Record
    ensures { result ≡ blank }
{
    let accel = no_accelerators();
    Record {
        props: PropertiesData {
            big: false,
            count: 0,
            records: 0,
            strings: 0,
            size: 0,
        },
        accel,
        metrics: MetricsData {
            big: false,
            compressed: false,
            count: 0,
            records: 0,
        },
        bitmaps: BitmapData {
            big: false,
            count: 0,
            offsets: 0,
            bits: 0,
            size: 0,
            pad: 0,
            unit: 0,
            top: false,
        },
        codes: EncodingData {
            big: false,
            low2: 0,
            high2: 0,
            low1: 0,
            high1: 0,
            default: 0,
            entries: 0,
            size: 0,
        },
        names: GlyphNameData {
            big: false,
            count: 0,
            offsets: 0,
            strings: 0,
            size: 0,
        },
    }
}
