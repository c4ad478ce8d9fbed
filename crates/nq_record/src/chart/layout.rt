//! Where all stands.

use crate::chart::bars::Lanes;
use crate::chart::chart::Chart;
use crate::chart::columns::Posts;
use crate::chart::legend::Legend;
use crate::chart::rows::Steps;
use crate::making::Maker;

/// Where all of a chart stands on the page.
#[derive(Drop)]
pub(crate) struct Layout {
    pub(crate) lanes: Lanes,
    pub(crate) posts: Posts,
    pub(crate) legend: Legend,
    pub(crate) steps: Steps,
}

impl Layout {
    /// Gives all of a chart its place.
    pub(crate) fn of(maker: &mut Maker, chart: &Chart) -> Layout {
        let lanes = Lanes::of(maker, chart);
        let posts = Posts::of(maker, chart, &lanes);
        let legend = Legend::of(maker, posts.width);
        let steps = Steps::of(maker, chart, legend.end);
        Layout {
            lanes,
            posts,
            legend,
            steps,
        }
    }
}
