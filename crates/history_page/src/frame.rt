// What stands before the data on all pages: the style and the elements. The links have a picture of their own, which
// isn't laid out and painted anew where an entry changes nodes alone.

/// What stands before the data on all pages: the style and the elements.
pub const HEAD: &[u8] = br#"<!doctype html>
<html lang="en">
<meta charset="utf-8">
<meta name="viewport" content="width=device-width">
<meta http-equiv="Content-Security-Policy" content="default-src 'none';
style-src 'sha256-hf5DRN5Iz806pXRd9mYtZWcX+3I1xYbZT/eiMde1PXo=';
script-src 'sha256-I5pKwXsAFJUGpPA7wDvMzzpNDXwWIowjZHiGYKk+AU8='">
<title>Reset history</title>
<style>
:root{color-scheme:light dark;--ground:light-dark(#fff,#14171c);--panel:light-dark(#f4f6f8,#20262e);
--ink:light-dark(#1f2328,#e6edf3);
--soft:light-dark(#59636e,#a3aeba);--here:light-dark(#ffefb0,#4a4114);--link:light-dark(#c0c8d0,#4a545f);
--n:light-dark(#76808a,#8b96a2);
--line:light-dark(#8c96a0,#66717d);--i:light-dark(#c98500,#e69f00);--r:light-dark(#0072b2,#3f9fe0);
--wave:light-dark(#2f95d0,#56b4e9);--done:light-dark(#009e73,#1fb68a);--bad:light-dark(#b84a00,#ff9a5c);--mend:#cc79a7;
--app:#f0e442;--dark:#1f2328;--s0:light-dark(#e9ecef,#2b313a);--s1:light-dark(#cfe5f5,#143a59);
--s2:light-dark(#fae3b4,#544110);--s3:light-dark(#c9ebdd,#124a37);
--s4:light-dark(#f3d3e4,#552c47);--s5:light-dark(#f3efb0,#4b4915)}
*{box-sizing:border-box;margin:0}
body{height:100vh;display:grid;gap:1px;background:var(--link);color:var(--ink);font:14px/1.4 system-ui,sans-serif;
grid:"top top" auto "map event" 12rem "map side" minmax(0,1fr) "bar side" auto "lanes side" auto/minmax(0,1fr)
clamp(29rem,32vw,42rem)}
header,section{background:var(--ground);min-width:0;padding:.4rem .8rem}
header,.row,label{display:flex;flex-wrap:wrap;gap:.3rem .8rem;align-items:center}
header{grid-area:top}h1{font-size:1rem}#sum{flex:1}#sum,#place,thead,#list b,#fails.none{color:var(--soft)}
#event{grid-area:event;overflow:auto;border-left:4px solid var(--ink)}#line{font:600 1.2rem ui-monospace,monospace;
overflow-wrap:anywhere}#fails,td:last-child{color:var(--bad)}#fails{padding:0;list-style:none}
i{display:inline-block;flex:none;width:17px;height:17px;border:2px solid;border-radius:50%;
font:700 10px/13px system-ui;text-align:center}
i:empty{border:0}.Q,.L{border-color:var(--i);border-radius:3px}.O,.J{border-color:var(--wave)}
.F{border-color:var(--done)}
.M{border-color:var(--mend)}.T{border-radius:0}.X{border-color:var(--bad);border-radius:0 60%}
#map{grid-area:map}#map,#lanes,#track,#roll>*{position:relative}
svg,canvas,#roll,#scrub{position:absolute;inset:0;width:100%;height:100%}
line{stroke:var(--line);stroke-width:clamp(.5px,var(--size)/16,1.2px)}.gone{stroke-dasharray:2 5}.hide{display:none}
line.bad{stroke:var(--bad);stroke-width:clamp(2px,var(--size)/5,5px);stroke-dasharray:2 4}
.halo{stroke-width:clamp(1.5px,var(--size)/6,3px)}
.father,.way,#flow{stroke:var(--n);stroke-width:clamp(.8px,var(--size)/9,2px);marker-end:url(#head)}
.way{stroke:var(--mend)}#head{fill:var(--n);fill:context-stroke}
#flow{stroke-width:clamp(2px,var(--size)/5,5px)}.node{cursor:pointer}.dim{opacity:.25}circle{r:var(--size)}
.body{stroke:var(--n);stroke-width:clamp(.8px,var(--size)/10,1.6px)}.off .body{fill:none;stroke-dasharray:2 3}
.i .body,.r .body{stroke:var(--r);stroke-width:max(1.6px,var(--size)/5)}.i .body{stroke:var(--i);
stroke-dasharray:calc(var(--size)/2.5) calc(var(--size)/5)}
.halo,#ring,#pick{fill:none;stroke:var(--bad);r:calc(var(--size) + 4px)}.halo{stroke-dasharray:2 3}
#ring,#pick{stroke-width:3px;r:calc(var(--size) + 7px)}#pick{stroke:var(--r);r:calc(var(--size) + 11px)}
.app,.coin{fill:var(--app);stroke:var(--dark);r:max(2.5px,var(--size)/3)}
.app{translate:calc(var(--size)*.8) calc(var(--size)*.8)}#dot{opacity:0;r:max(4px,var(--size)/2.5)}
:is(.node:not(.bad) .halo,.node:not(.has) .app,.node:not(.lead) .crown,.small .node:not(.lead,.picked,.here,
:hover) .name,svg:not(.big) .lower){display:none}
text{fill:var(--ink);text-anchor:middle;dominant-baseline:central;font-weight:700;pointer-events:none}
.name{font-size:max(8.5px,min(var(--size),var(--size)*3/var(--long)))}
.big .name{font-size:max(9px,min(var(--size)*.75,var(--size)*2.6/var(--long)));translate:0 calc(var(--size)*-.1)}
.lower{font-size:calc(var(--size)*.42);font-weight:400;translate:0 calc(var(--size)*.55)}
.crown{font-size:max(11px,var(--size)*.8);translate:0 calc(var(--size)*-1.2 - 6px)}
.small .name{font-size:calc(12px/var(--zoom));translate:0 calc(var(--size) + 8px/var(--zoom));paint-order:stroke;
stroke:var(--ground);stroke-width:calc(3px/var(--zoom))}
#lanes{grid-area:lanes;height:min(15.5rem,36px + var(--rows)*22px)}#roll{overflow:auto}#roll #cursor{position:absolute;
inset:0 auto;border:solid;border-width:0 1.5px;background:#f0e44214;pointer-events:none}
#bar{grid-area:bar}.row{margin-bottom:.3rem}.row span,label{white-space:nowrap}#track{height:32px}
button,input,select{font:inherit;color:inherit;background:var(--panel);border:1px solid var(--link);border-radius:5px;
padding:.1rem .5rem;min-height:1.75rem}
button:disabled{opacity:.4}#play{width:4.4rem;font-weight:600}#entry{width:6.5rem}
:focus-visible{outline:2px solid var(--r);outline-offset:-2px}
#scrub{padding:0;background:none;border:0;appearance:none}
#scrub::-webkit-slider-thumb{appearance:none;width:12px;height:32px;border:2px solid var(--ground);border-radius:6px;
background:var(--ink)}
#side{grid-area:side;display:flex;flex-direction:column;padding:0}#side>*{flex:none;
border-bottom:1px solid var(--link)}#side label,#whole{padding:.4rem .8rem}#filter{flex:1}
#rows,#list,#whole{overflow:auto}#rows{max-height:56%}#whole{max-height:7rem;overflow-wrap:anywhere}#side #list{flex:1}
#whole,#list a{font:.95em ui-monospace,monospace}
table{border-collapse:collapse;width:100%;min-width:29rem;table-layout:fixed;font-size:13px}
th,td{height:24px;padding:0 2px;text-align:right;white-space:nowrap;overflow:hidden;text-overflow:ellipsis}
th{width:3rem}th:nth-child(1){width:3.8rem}th:nth-child(4){width:2rem}th:nth-child(5){width:4rem}
th:nth-child(6){width:3.3rem}th:nth-child(7){width:5rem}th:nth-child(8){width:auto}
thead th{position:sticky;top:0;background:var(--panel);font-weight:400}
:is(th,td):is(:nth-child(5),:nth-child(n+7)){text-align:left;padding-left:9px}td:last-child{font-size:12px}
td a{color:inherit;font-weight:600;
text-decoration:none}
tr.here,#list .here{background:var(--here)}tr.picked{outline:2px solid var(--r);outline-offset:-2px}
#list a{display:flex;gap:.6rem;height:24px;align-items:center;color:inherit;text-decoration:none;white-space:nowrap}
#list b{font-weight:400;width:4.5em;text-align:right;flex:none}
dialog{margin:auto;max-width:46rem;border:1px solid;background:var(--ground);color:inherit}dialog p{margin-bottom:.6rem}
@media(max-width:60rem){body{display:flex;flex-direction:column;height:auto}#map{height:min(60vh,42vw + 8rem)}
#bar{position:sticky;top:0;bottom:0;z-index:2}#event{order:-1;height:8rem}header{order:-2}
#sum{flex:100%;order:1}#rows,#side #list{max-height:24rem;flex:none}}
@media(max-width:30rem){header,section,#side label,#whole{padding:.3rem .5rem}#sum{font-size:12px}
.row{gap:.25rem .5rem}.row :is(button,input,select){padding:.1rem .35rem}#play{width:3.4rem}#entry{width:4.6rem}
body{font-size:13px}table{font-size:12px;min-width:23rem}th{font-size:11px;width:2.5rem}th:nth-child(1){width:3rem}
th:nth-child(4){width:1.8rem}th:nth-child(5){width:3.4rem}th:nth-child(6){width:2.8rem}th:nth-child(7){width:3.8rem}}
@media(max-height:34rem){#bar{position:static}}
</style>
<header><h1 id="title">Reset history</h1><p id="sum"></p><span><button data-do="theme">Theme</button> <button
data-do="help" data-key="?">Help</button></span></header>
<section id="map" aria-label="Network"><svg id="links" aria-hidden="true"></svg><svg id="net" role="img"><marker
id="head" viewBox="0 0 8 8" refX="8" refY="4" markerUnits="userSpaceOnUse" orient="auto"><path
d="M0 0L8 4L0 8z"/></marker>
<g id="arrows"></g><line id="flow"/><circle id="ring"/><circle id="pick"/><g id="nodes"></g><g id="coins"></g><circle
id="dot"/>
<defs><line id="tie"/><circle id="coin" class="coin"/><g id="node"><title></title><circle class="halo"/><circle
class="body"/><circle class="app"/><text class="crown">&#9819;</text><text class="name"></text><text
class="lower"></text></g></defs></svg></section>
<section id="event" aria-label="This moment"><p id="place"></p><p id="line"><i id="sign"></i> </p><p id="tell"
aria-live="polite"></p><ul id="fails" aria-label="What fails now"></ul></section>
<section id="bar" aria-label="Player">
<div class="row"><span><button data-do="home" data-key="Home">&laquo; Start</button> <button data-do="back"
data-key="ArrowLeft">&lsaquo; Back</button>
<button id="play" data-do="play" data-key=" ">Play</button> <button data-do="step" data-key="ArrowRight">Step
&rsaquo;</button> <button data-do="last" data-key="End">End &raquo;</button></span>
<label>Entry <input id="entry" type="number" min="0" data-key="g"></label> <label>Entries a second <select
id="speed"><option>1<option>2<option>5<option>20<option>100<option>500<option>2000</select></label></div>
<div class="row" id="jumps"><span>Map <button data-do="nearer" aria-label="Map nearer">+</button> <button
data-do="farther" aria-label="Map farther">&minus;</button></span>
<span>Lanes <button data-do="wider" aria-label="Lanes wider">+</button> <button data-do="denser"
aria-label="Lanes denser">&minus;</button></span></div>
<div id="track"><canvas id="marks"></canvas><input id="scrub" type="range" min="0" aria-label="Entry"></div></section>
<section id="lanes" aria-label="Lanes"><canvas id="space" role="img"
aria-label="A lane for each node, with its phases and sessions in time"></canvas><div id="roll" tabindex="0"
role="group" aria-label="Time"><div><div id="cursor"></div></div></div></section>
<section id="side" aria-label="Registers and entries"><label>Filter <input id="filter" data-key="/"
placeholder="3, 5-9, ~4 with neighbours, fault, open"></label>
<div id="rows" tabindex="0" role="group" aria-label="Registers"><div><table
id="table"><thead><tr><th>node<th>root<th>father<th>dist<th>phase<th>session<th>state<th>fails</thead><tbody
id="body"></tbody></table></div></div>
<p id="whole" hidden></p><div id="list" tabindex="0" role="group" aria-label="Entries"><div></div></div></section>
<dialog id="help"><p><b>Network.</b> A circle is a node; its fill its session, six colours by turns; its rim its phase:
thin grey is normal, orange dashes initiate (it has asked for a reset), thick blue reset (it has restarted, and waits
for its children). A crown: the leader of a component. An arrow: the father. Yellow: a token, or a node inside. Purple:
routes to the chosen node. Grey dashes: down. Red dots: a local predicate fails.
<p><b>Entries.</b> <i class="Q">Q</i> request <i class="L">L</i> relay <i class="O">O</i> open <i class="J">J</i> join
<i class="F">F</i> finish <i class="M">M</i> mend <i class="T">T</i> claim, follow, adopt <i>A</i> act <i
class="X">!</i> fault
<p><b>Time.</b> Above the scrubber's line stand completions, on it openings, below it faults; it is red where something
fails. A lane is a node: its ground the session, its bar the phase, red below it what fails there; a dashed line is a
completed reset.
<p><b>Keys.</b> Space plays; arrows, Page Up, Page Down, Home, End go. F, O, C, X, M: next fault, opening, completion,
change of what fails, match of the filter or else entry of the chosen node; with Shift the one before. + &minus; speed,
G entry, / filter, and out of both by Enter or Escape; Escape no node.
<p>The address names the moment: #entry=17&amp;node=3<form method="dialog"><button>Close</button></form></dialog>
<noscript>This page plays its history by JavaScript; its source has the history as plain text.</noscript>
<script type="text/plain" id="history">
"#;
