//! How a picture looks. Most people who are colour-blind can distinguish its colours, light and dark (Okabe and Ito).

/// The style of every picture, and of nothing else in a page. There its colours are light or dark as the page is.
pub(crate) static STYLE: &str = "<style>
svg:root{color-scheme:light dark}
.thrushscreen{background:#ffffff}
.thrushscreen text{font-family:ui-monospace,'DejaVu Sans Mono',Menlo,Consolas,monospace;font-size:12px;fill:#1b1f24}
.thrushscreen .title{font-size:18px;font-weight:bold}
.thrushscreen .lane{font-size:14px;font-weight:bold;paint-order:stroke;stroke:#ffffff;stroke-width:6px;stroke-linejoin:round}
.thrushscreen .figure{font-size:16px;font-weight:bold}
.thrushscreen .head{font-weight:bold}
.thrushscreen .soft{fill:#57606a}
.thrushscreen .side{fill:#57606a;text-anchor:end}
.thrushscreen .letter{font-size:11px;font-weight:bold;text-anchor:middle;fill:#000000}
.thrushscreen .ground{fill:#ffffff}
.thrushscreen .card{fill:#f3f5f8;stroke:#ccd3db}
.thrushscreen .fresh{fill:#56b4e9}
.thrushscreen .hit{fill:#009e73}
.thrushscreen .primed{fill:#cc79a7}
.thrushscreen .error{fill:#e69f00}
.thrushscreen .failed{fill:#d55e00}
.thrushscreen .cleared{fill:#f0e442}
.thrushscreen .kept{fill:#8c959f}
.thrushscreen .refused{fill:#1b1f24}
.thrushscreen .settled{fill:#0072b2}
.thrushscreen .waiting{fill:#ffffff;stroke:#57606a}
.thrushscreen .fault{fill:#a40000}
.thrushscreen .settled+.letter,.thrushscreen .refused+.letter,.thrushscreen .fault+.letter{fill:#ffffff}
.thrushscreen .join{fill:none;stroke:#8c959f}
@supports (color:light-dark(#ffffff,#000000)){
.thrushscreen{background:light-dark(#ffffff,#12161b)}
.thrushscreen text{fill:light-dark(#1b1f24,#e6e9ed)}
.thrushscreen .lane{stroke:light-dark(#ffffff,#12161b)}
.thrushscreen .soft,.thrushscreen .side{fill:light-dark(#57606a,#9aa5b1)}
.thrushscreen .ground{fill:light-dark(#ffffff,#12161b)}
.thrushscreen .card{fill:light-dark(#f3f5f8,#1d232b);stroke:light-dark(#ccd3db,#3d4752)}
.thrushscreen .refused{fill:light-dark(#1b1f24,#e6e9ed)}
.thrushscreen .refused+.letter{fill:light-dark(#ffffff,#000000)}
.thrushscreen .waiting{fill:light-dark(#ffffff,#1d232b);stroke:light-dark(#57606a,#9aa5b1)}
.thrushscreen .waiting+.letter{fill:light-dark(#000000,#e6e9ed)}
.thrushscreen .join{stroke:light-dark(#8c959f,#768390)}
}
</style>
";
