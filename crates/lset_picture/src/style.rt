/// The style sheet in every SVG. Its rules apply only inside the SVG, even if the SVG is embedded in a page.
///
/// Color-blind readers can distinguish the colors of the threads, and each color has a contrast of at least 4.5 against
/// the background. A call that contradicts the order is drawn thick as well as red.
pub(crate) const STYLE: &str = "\
<style>
.listset { color: #1b1f24 }
.listset .ground, .listset .fit { fill: #ffffff }
.listset text, .listset .change { fill: currentColor }
.listset .bar, .listset .point { stroke: currentColor }
.listset .bar { stroke-width: 2 }
.listset .open { stroke-dasharray: 6 4 }
.listset .stem { stroke: #c9cfd6 }
.listset .thread-0 { color: #0072b2 }
.listset .thread-1 { color: #c44e00 }
.listset .thread-2 { color: #00805d }
.listset .thread-3 { color: #aa4499 }
.listset .thread-4 { color: #882255 }
.listset .thread-5 { color: #2b7f72 }
.listset .thread-6 { color: #6f6f14 }
.listset .thread-7 { color: #332288 }
.listset .clash { color: #b3261e; font-weight: bold }
.listset .bar.clash { stroke-width: 6 }
@media (prefers-color-scheme: dark) {
.listset { color: #e6e9ec }
.listset .ground, .listset .fit { fill: #14181d }
.listset .stem { stroke: #4a545f }
.listset .thread-0 { color: #56b4e9 }
.listset .thread-1 { color: #ff9e4a }
.listset .thread-2 { color: #2fc79b }
.listset .thread-3 { color: #e58fd6 }
.listset .thread-4 { color: #e07aa4 }
.listset .thread-5 { color: #7fd6c8 }
.listset .thread-6 { color: #d6d25a }
.listset .thread-7 { color: #a99cf5 }
.listset .clash { color: #ff9c93 }
}
</style>";
