//! What every picture has: how its shapes look, and the key to the lines.

/// The colours of light and dark pages, the hatching, and the key. Each application's colour has a contrast of 4.5 to 1 and more
/// to white.
pub const STYLE: &str = "\
<style>
svg{background:#fff;width:100%;height:auto}
text{font:125px system-ui,sans-serif;fill:#1c1e21}
.head{font-size:180px;font-weight:bold}
.socket{font-weight:bold}
.core{text-anchor:end}
.tick{text-anchor:middle}
.name{fill:#fff;stroke:#000;stroke-opacity:.6;stroke-width:22px;paint-order:stroke;pointer-events:none}
.row,.frame{fill:#8b95a1;fill-opacity:.14}
.grid{stroke:#c3c8ce;stroke-width:6px}
.bar,.swatch{stroke:#fff;stroke-width:10px}
rect.asked{fill:url(#asked);pointer-events:all}
.waits{fill:#b9bfc6}
.wants,.due,.owns{fill:none;stroke:#1c1e21}
.wants{stroke-width:20px;stroke-dasharray:20 26}
.due{stroke-width:20px;stroke-dasharray:90 40}
.owns{stroke-width:30px}
[data-app=\"0\"]{fill:#1155bb}
[data-app=\"1\"]{fill:#bb5511}
[data-app=\"2\"]{fill:#442233}
[data-app=\"3\"]{fill:#0000ff}
[data-app=\"4\"]{fill:#337799}
[data-app=\"5\"]{fill:#777755}
[data-app=\"6\"]{fill:#0000aa}
[data-app=\"7\"]{fill:#551100}
[data-app=\"8\"]{fill:#6655ff}
[data-app=\"9\"]{fill:#336666}
[data-app=\"10\"]{fill:#004488}
[data-app=\"11\"]{fill:#773300}
[data-app=\"12\"]{fill:#0077bb}
[data-app=\"13\"]{fill:#002288}
[data-app=\"14\"]{fill:#334466}
[data-app=\"15\"]{fill:#554433}
@media (prefers-color-scheme:dark){
svg{background:#15171a}
text{fill:#e6e8ea}
.grid{stroke:#484d53}
.bar,.swatch{stroke:#e6e8ea}
.waits{fill:#5a6067}
.wants,.due,.owns{stroke:#e6e8ea}
}
</style>
<defs>
<pattern id=\"asked\" width=\"60\" height=\"60\" patternUnits=\"userSpaceOnUse\" patternTransform=\"rotate(45)\"><rect width=\"26\" height=\"60\" fill=\"#fff\" fill-opacity=\".65\"/></pattern>
<g id=\"panel\"><rect class=\"frame\" x=\"1500\" y=\"160\" width=\"10300\" height=\"400\"/><text class=\"core\" x=\"1420\" y=\"600\">0</text></g>
<g id=\"key\">
<rect x=\"200\" width=\"400\" height=\"160\" fill=\"#4d4d4d\"/><rect class=\"asked\" x=\"200\" width=\"400\" height=\"160\"/><text x=\"660\" y=\"120\">asked back</text>
<path class=\"owns\" d=\"M2000 80H2500\"/><text x=\"2560\" y=\"120\">cores owned</text>
<path class=\"due\" d=\"M3900 80H4400\"/><text x=\"4460\" y=\"120\">cores due</text>
<path class=\"wants\" d=\"M5700 80H6200\"/><text x=\"6260\" y=\"120\">cores wanted</text>
<rect class=\"waits\" x=\"7700\" width=\"400\" height=\"160\"/><text x=\"8160\" y=\"120\">threads that wait</text>
</g>
</defs>
";
