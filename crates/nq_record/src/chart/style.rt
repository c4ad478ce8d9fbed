//! How a chart looks.

/// The colours are those of Okabe and Ito, which colour-blind readers tell apart; a reader who prefers a dark page gets one. Each is
/// written out, since not all viewers know variables.
pub(crate) const STYLE: &str = "<style>\
svg{background:#fff;font:11px ui-monospace,'DejaVu Sans Mono',Menlo,Consolas,monospace}.f{fill:#fff}\
text{fill:#1a1a1e;stroke:#fff;stroke-width:3px;stroke-linejoin:round;paint-order:stroke;white-space:pre}\
.h{font-size:14px;font-weight:bold}.p{font-weight:bold;text-anchor:middle}.d{fill:#5f636b}.e{text-anchor:end}\
.k{fill:#0072b2}.l{fill:#c24e00}.c{fill:#1a1a1e;font-weight:bold}.w{fill:#007a5a}.s{fill:#9b3d7a;font-weight:bold}\
.b{fill:#1a1a1e;stroke:none;font-size:9px}\
.r{stroke:#dcdfe4}.v{stroke:#5f636b;stroke-width:1.5}\
.a{stroke:#0072b2;stroke-width:1.3;fill:none;marker-end:url(#a)}.g{stroke-dasharray:5 3}\
.x{stroke:#c24e00;stroke-width:1.3;fill:none;marker-end:url(#x)}\
.i{fill:#0072b2}.y{stroke:#c24e00;stroke-width:2}circle{stroke:#fff}\
.n0{fill:#d3d3d3}.n1{fill:#a9d8f3}.n2{fill:#f3c765}.n3{fill:#e3b3cf}\
@media(prefers-color-scheme:dark){svg{background:#16181d}.f{fill:#16181d}text{fill:#e8e8ec;stroke:#16181d}.d{fill:#a0a4ad}\
.k{fill:#6cc0ee}.l{fill:#ff8f4d}.c{fill:#e8e8ec}.w{fill:#3fc9a0}.s{fill:#e39bc7}.b{fill:#fff}.r{stroke:#33373f}.v{stroke:#a0a4ad}\
.a{stroke:#6cc0ee}.x{stroke:#ff8f4d}.i{fill:#6cc0ee}.y{stroke:#ff8f4d}circle{stroke:#16181d}\
.n0{fill:#5a5a5a}.n1{fill:#2b6f99}.n2{fill:#8f6400}.n3{fill:#7d3f64}}\
</style>";

/// The heads of arrows: a point where a packet arrives, a cross where it is lost.
pub(crate) const HEADS: &str = "<defs>\
<marker id=\"a\" viewBox=\"0 0 8 8\" refX=\"7.5\" refY=\"4\" markerWidth=\"8\" markerHeight=\"8\" markerUnits=\"userSpaceOnUse\" \
orient=\"auto\"><path class=\"i\" d=\"M0 0.5L8 4L0 7.5z\"/></marker>\
<marker id=\"x\" viewBox=\"0 0 10 10\" refX=\"5\" refY=\"5\" markerWidth=\"10\" markerHeight=\"10\" markerUnits=\"userSpaceOnUse\">\
<path class=\"y\" d=\"M1 1L9 9M9 1L1 9\"/></marker>\
</defs>";

/// How wide a letter is, in pixels: a little more than it is in the usual fonts.
pub(crate) const LETTER: u64 = 7;

/// How far lines of text stand apart, in pixels.
pub(crate) const LINE: u64 = 14;

/// How far the bars of a party stand apart, in pixels.
pub(crate) const LANE: u64 = 15;

/// How wide a bar is, in pixels.
pub(crate) const BAR: u64 = 12;

/// How wide the clock of a party is at the edge, in pixels.
pub(crate) const CLOCK: u64 = 52;
