//! How the things on the page of a run look, in the light and in the dark, and what its lines and colours mean.

pub(crate) static STYLE: &str = "<style>
text{font-family:Helvetica,Arial,sans-serif;font-size:11px;fill:#6b727b}
.page{fill:#fff}.idle{fill:#fff;fill-opacity:.82}
.n0{fill:#2f6db5}.n1{fill:#c4572a}.n2{fill:#3f8f4f}.n3{fill:#8a55a8}.n4{fill:#b58a17}.n5{fill:#1f8f94}.n6{fill:#b0436f}.n7{fill:#6b6f2a}
.p0{fill:#e9f0f9}.p1{fill:#fbeee7}.p2{fill:#eaf5ec}.p3{fill:#f3ecf7}.p4{fill:#f9f3df}.p5{fill:#e3f4f4}.p6{fill:#f9e9f0}.p7{fill:#f1f2e2}
.open{fill-opacity:.6}rect[rx=\"3\"]{stroke:#fff;stroke-width:.4}.frame{fill:none;stroke:#d9dde2}
.name{font-size:13px;font-weight:600;text-anchor:end}.head{font-size:16px;font-weight:600;fill:#22262b}
.number{fill:#fff;text-anchor:middle}.scale{font-size:10px;text-anchor:middle}
.unit{font-size:10px;text-anchor:end}.axis{stroke:#6b727b;stroke-width:.8}
.arrow{fill:none;stroke:#49525c;stroke-width:1.3;stroke-opacity:.85;marker-end:url(#a)}.some{stroke-width:1;stroke-opacity:.6}
.many{stroke-width:.7;stroke-opacity:.3;marker-end:none}.dot{fill:#49525c}.lost{stroke:#b00020;stroke-width:1.3;stroke-dasharray:2 2}
polyline.wave,circle.wave{fill:none;stroke:#d08a00;stroke-width:1.1;stroke-opacity:.75;stroke-linejoin:round}
polyline.tells,circle.tells{stroke:#1b7f3b;stroke-width:1.8;stroke-opacity:1}circle.ring{fill:#fff;stroke-width:1.4}
text.wave{fill:#a66e00}text.tells,.told,.seen{fill:#1b7f3b;font-weight:600}.left,.told{text-anchor:end}
.over{fill:#1b7f3b;fill-opacity:.07}.end{stroke:#1b7f3b;stroke-width:2.4}
path.fault{stroke:#b00020;stroke-width:2.4}text.fault{fill:#b00020;font-weight:600;text-anchor:end}
path.seam{stroke:#22262b;stroke-width:1.2;stroke-dasharray:6 3}text.seam{fill:#22262b}
@media (prefers-color-scheme:dark){text{fill:#9aa3ad}.page{fill:#15181c}.idle{fill:#15181c}
.p0{fill:#1c2a3a}.p1{fill:#35231b}.p2{fill:#1d3022}.p3{fill:#2b2233}.p4{fill:#322b16}.p5{fill:#1a2f30}.p6{fill:#341f29}.p7{fill:#2a2b1b}
.n0{fill:#6fa3e0}.n1{fill:#e08a62}.n2{fill:#74bd83}.n3{fill:#b98ad4}.n4{fill:#d9b452}.n5{fill:#58bcc0}.n6{fill:#db7ea3}.n7{fill:#aab05a}
rect[rx=\"3\"]{stroke:#15181c}.number{fill:#15181c}.head,text.seam{fill:#e6e9ed}
.frame{stroke:#39404a}.arrow{stroke:#aab3bd}.dot{fill:#aab3bd}.axis{stroke:#9aa3ad}
polyline.wave,circle.wave{stroke:#e0a83a}polyline.tells,circle.tells,.end{stroke:#4fc47a}circle.ring{fill:#15181c}text.wave{fill:#e0a83a}
text.tells,.told,.seen{fill:#4fc47a}.over{fill:#4fc47a;fill-opacity:.12}
.lost,path.fault{stroke:#ff6b81}text.fault{fill:#ff6b81}path.seam{stroke:#e6e9ed}}
</style>
<defs><marker id=\"a\" viewBox=\"0 0 8 8\" refX=\"7\" refY=\"4\" markerWidth=\"6\" markerHeight=\"6\" orient=\"auto\">\
<path class=\"dot\" d=\"M0,0.8L8,4L0,7.2z\"/></marker></defs>
<rect class=\"page\" width=\"100%\" height=\"100%\"/>
";

/// The style if sums are drawn instead of single tasks and messages.
pub(crate) static STYLE_OF_SUMS: &str = "<style>
.hill{fill-opacity:.85}.r{fill:none;stroke-opacity:.38}
.r0{stroke:#2f6db5}.r1{stroke:#c4572a}.r2{stroke:#3f8f4f}.r3{stroke:#8a55a8}
.r4{stroke:#b58a17}.r5{stroke:#1f8f94}.r6{stroke:#b0436f}.r7{stroke:#6b6f2a}
@media (prefers-color-scheme:dark){
.r0{stroke:#6fa3e0}.r1{stroke:#e08a62}.r2{stroke:#74bd83}.r3{stroke:#b98ad4}
.r4{stroke:#d9b452}.r5{stroke:#58bcc0}.r6{stroke:#db7ea3}.r7{stroke:#aab05a}}
</style>
";

pub(crate) static LEGEND: &str =
    "<text x=\"74\" y=\"66\">bar: a task runs · lane: tinted where something is pending at the node</text>
<text x=\"74\" y=\"82\">arrow: a message · line: a wave, through the place where each node gave its sums</text>
";

pub(crate) static LEGEND_OF_SUMS: &str =
    "<text x=\"74\" y=\"66\">height: how many tasks run · lane: tinted where something is pending at the node</text>
<text x=\"74\" y=\"82\">ribbon: messages, wider the more · line: one of the last 50 waves, where each node gave its sums</text>
";
