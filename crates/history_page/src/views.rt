// What stands after the data on all pages, second part: the script that shows a moment and goes to others.

/// What stands after the data on all pages, second part: the script that shows a moment and goes to others.
pub const VIEWS: &[u8] = br#"// ---- The network
// size: of a node; scale, high: of an entry in the lanes
let now = 0, chosen = null, speed = 0, since = 0, size = 9, scale = 0, whole = 0, high = 3;
// what the filter leaves: nodes, entries, and both in order
let wanted = null, found = null, tabled = nodes, lanes = [], motion = null;
let drawn = { p: NaN }; // how the network is drawn: for which moment, and what else it was drawn by
const still = matchMedia('(prefers-reduced-motion:reduce)'), net = $('net'), roll = $('roll'),
  view = { k: 1, x: 0, y: 0 };
const set = (e, values) => { // what stays isn't set, as the browser would compute style and place anew
  for (const key in values) if (e.getAttribute(key) !== `${values[key]}`) e.setAttribute(key, values[key]);
};
const mark = (e, kind) => { if (e.kind !== kind) set(e, { class: e.kind = kind }); };
const write = (e, t) => { // into the text that is there, which takes less than a new one
  if (e.shown === t) return;
  e.shown = t;
  if (e.firstChild) e.firstChild.data = t; else e.textContent = t;
};
const fill = (e, count, fresh, put) => { // so many children, and in each what belongs there
  while (e.children.length > count) e.lastChild.remove();
  while (e.children.length < count) e.append(fresh());
  for (let k = 0; k < count; k++) put(e.children[k], k);
};
const make = (tag, ...inside) => { const e = document.createElement(tag); e.append(...inside); return e; };
const copy = (id, into) => { const e = $(id).cloneNode(true); e.removeAttribute('id'); $(into).append(e); return e; };
const tie = (e, a, b, gap) => { // a line from a toward b that ends so far before it
  const f = gap / (hypot(b.x - a.x, b.y - a.y) || 1);
  set(e, { x1: a.x, y1: a.y, x2: b.x - (b.x - a.x) * f, y2: b.y - (b.y - a.y) * f });
};
for (const l of links) l.e = copy('tie', 'links');
for (const v of nodes) {
  v.arrow = copy('tie', 'arrows'); v.way = copy('tie', 'arrows'); v.e = copy('node', 'nodes');
  v.e.dataset.node = v.id; v.e.style.setProperty('--long', v.id.length); v.flips = [];
  [v.title, , v.body, , , v.name, v.lower] = v.e.children;
  write(v.name, v.id);
}
// tokens whose given and taken bits differ
const flights = new Set(), flip = (pair) => flights.delete(pair) || flights.add(pair);
const fit = () => { // turns and stretches the arrangement to its room, and pushes apart what is too near
  const w = net.clientWidth, h = net.clientHeight, mean = (list) => list.reduce((a, b) => a + b) / N;
  const end = near.findIndex((ks) => ks.length === 1), wide = N * 62 < w ? N : ceil(sqrt(N * w / h));
  const turned = (_, degrees) => {
    const a = degrees * PI / 180 - PI / 2 - atan2(ys[N - 1] - mean(ys), xs[N - 1] - mean(xs));
    const x = xs.map((x, k) => x * cos(a) - ys[k] * sin(a)), y = ys.map((y, k) => xs[k] * sin(a) + y * cos(a));
    if (path) for (const k of x.keys()) { const d = far[end * N + k]; y[k] = floor(d / wide);
      x[k] = y[k] % 2 ? wide - 1 - d % wide : d % wide; }
    const dx = max(...x) - min(...x), dy = max(...y) - min(...y);
    const fx = (w - 90) / max(dx, 0.1), fy = (h - 90) / max(dy, 0.1), least = min(fx, fy, 150);
    const spread = (list, to, by, from = (min(...list) + max(...list)) / 2) => list.map((x) =>
      to + (x - from) * min(by, least * 2.2));
    return { least, area: dx * dy, x: spread(x, w / 2, fx), y: spread(y, h / 2 + 8, fy) };
  };
  const turns = Array.from({ length: path ? 1 : 180 }, turned),
    best = turns.reduce((a, b) => (b.least > a.least ? b : a));
  // the leader is above where that costs little room
  const { x, y, least, area } = best.least > turns[0].least * 1.2 ? best : turns[0];
  const room = least * min(0.6, 0.85 * sqrt(area / N) || 1);
  relax(x, y, 12, () => (d) => (d < room ? room - d : 0));
  const gaps = x.map((x1, i) => x.reduce((d, x2, j) => (i === j ? d : min(d, hypot(x1 - x2, y[i] - y[j]))), 80)).sort();
  size = max(2.5, gaps[floor(N / 20)] * 0.33);
  Object.assign(view, { w, h, k: 1 });
  for (const v of nodes) {
    v.x = clamp(20, x[v.k], w - 20); v.y = clamp(30, y[v.k], h - 20); v.arrow.to = v.way.to = null;
    set(v.e, { transform: `translate(${v.x} ${v.y})` });
  }
  for (const { e, a, b } of links) tie(e, a, b, 0);
  drawn.p = NaN;
  $('map').style.setProperty('--size', `${size}px`);
  set($('head'), { markerWidth: clamp(4, size * 0.6, 13), markerHeight: clamp(4, size * 0.6, 13) });
  zoom(1);
};
const zoom = (by, x = view.w / 2, y = view.h / 2) => { // keeps in place what is at x, y
  const k = clamp(1, view.k * by, 30);
  view.x = k > 1 && view.x + x / view.k - x / k; view.y = k > 1 && view.y + y / view.k - y / k; view.k = k;
  net.style.setProperty('--zoom', k); net.style.touchAction = k > 1 ? 'none' : '';
  for (const e of [$('links'), net]) set(e, { viewBox: `${+view.x} ${+view.y} ${view.w / k} ${view.h / k}` });
  set(net, { class: size * k < 8 ? 'small' : size * k < 14 ? '' : 'big' });
};
const drawNet = (smooth) => {
  const p = now, at = where[p], lead = leaders(p), carry = flow(p),
    both = (v, u) => carry && carry.includes(v) && carry.includes(u);
  const wrong = new Set(all(p).map((f) => f.v.links.get(byId.get(f.to)))), views = [turn, chosen, wanted],
    apart = [at, ...(carry || [])].filter((v) => v), first = min(p, drawn.p), last = max(p, drawn.p);
  // between near moments with the same links only the nodes of the entries and their neighbours may look otherwise
  const near = last - first < 50 && views.every((it, k) => it === drawn.views[k]), stirred = near ? new Set([
    ...drawn.apart, ...apart, ...where.slice(first + 1, last + 1).flatMap((v) => [v, ...v.links.keys()])]) : nodes;
  if (!near || wrong.size || drawn.wrong.size) {
    for (const { e, s } of links) mark(e, get(s, p) ? (wrong.has(s) ? 'bad' : '') : s.is[0] ? 'gone' : 'hide');
  }
  drawn = { p, views, apart, wrong };
  for (const v of stirred) {
    const up = get(v.up, p), w = get(v.wave, p), u = up && father(v, p);
    const [, next] = app === 'routes' && chosen && up && `,${state(v, p)}`.match(`,${chosen.id}:[1-9]\\d*:(\\d+)`) ||
      [];
    const way = byId.get(next), has = up && app !== 'routes' && /^(hold|in)/.test(state(v, p));
    if (u && v.arrow.to !== u) tie(v.arrow, v, v.arrow.to = u, size + 2);
    mark(v.arrow, u && !both(v, u) ? 'father' : 'hide');
    if (way && v.way.to !== way) tie(v.way, v, v.way.to = way, 0.55 * hypot(v.x - way.x, v.y - way.y));
    mark(v.way, way && joined(v, way, p) ? 'way' : 'hide');
    mark(v.e, `node ${up ? w[0] : 'off'}${get(v.fails, p).length ? ' bad' : ''}${lead.get(v) === v ? ' lead' : ''}${
      has ? ' has' : ''}${v === chosen ? ' picked' : ''}${v === at ? ' here' : ''}${
      wanted && !wanted.has(v) ? ' dim' : ''}`);
    if (v.wears !== (up && w)) { // what a session gives is set where it changes
      v.wears = up && w;
      v.body.style.fill = up ? `var(--s${w.slice(1) % 6})` : '';
      write(v.lower, up ? `s${w.slice(1).replace(/^\d+(?=\d{4}$)/, '\u2026')}` : 'down');
    }
    if (app !== 'token') continue;
    const [, given, taken] = up ? state(v, p).split('/').map((ids) => ids.split(',')) : [, [], []];
    v.flips.forEach(flip);
    v.flips = [...given.map((id) => `${v.id} ${id}`), ...taken.map((id) => `${id} ${v.id}`)];
    v.flips.forEach(flip);
  }
  const under = [...flights].map((pair) => pair.split(' ').map((id) => byId.get(id)))
    .filter(([v, u]) => v && u && joined(v, u, p));
  fill($('coins'), under.length, () => copy('coin', 'coins'), (coin, k) => {
    const [v, u] = under[k];
    set(coin, { cx: v.x * 0.4 + u.x * 0.6, cy: v.y * 0.4 + u.y * 0.6 });
  });
  for (const [id, v] of [['pick', chosen], ['ring', at]]) {
    mark($(id), v ? '' : 'hide');
    if (v) set($(id), { cx: v.x, cy: v.y });
    if (v && v.e !== $('nodes').lastChild) $('nodes').append(v.e); // no other node covers its name
  }
  mark($('flow'), carry ? '' : 'hide');
  const ink = `var(--${INK[letter(p)]})`;
  if (net.ink !== ink) {
    net.ink = ink;
    for (const id of ['flow', 'ring', 'dot']) $(id).style.stroke = ink;
    $('dot').style.fill = $('event').style.borderColor = ink;
  }
  if (carry) tie($('flow'), ...carry, size + 3);
  if (motion) motion.cancel();
  motion = carry && smooth && !still.matches && $('dot').animate(carry.map((v) =>
    ({ transform: `translate(${v.x}px,${v.y}px)`, opacity: 1 })), 400);
  set(net, { 'aria-label': `${N} nodes at entry ${p}, ${bad[p]} rows fail; the table has all registers` });
};

// ---- The lanes: a row for each node, nearest to the leader first; time to the right
const LETTER = { request: 'Q', relay: 'L', open: 'O', join: 'J', finish: 'F', mend: 'M', act: 'A', fault: 'X' };
const INK = { Q: 'i', L: 'i', O: 'wave', J: 'wave', F: 'done', M: 'mend', T: 'ink', A: 'soft', X: 'bad' },
  sign = (m) => (m === 'X' ? '!' : m);
const letter = (p) => (p ? LETTER[text[p].split(' ', 1)[0]] || 'T' : '');
const colours = new Map(), probe = document.body.appendChild(make('s'));
const colour = (name) => {
  if (!colours.has(name)) { probe.style.color = `var(--${name})`; colours.set(name, getComputedStyle(probe).color); }
  return colours.get(name);
};
const pen = (id) => { // what draws on a canvas, in CSS pixels
  const e = $(id), w = e.clientWidth, h = e.clientHeight, c = e.getContext('2d');
  e.width = w * devicePixelRatio; e.height = h * devicePixelRatio;
  c.scale(devicePixelRatio, devicePixelRatio); c.textBaseline = 'middle';
  return { c, w, h,
    box: (name, x, y, dx, dy) => { c.fillStyle = colour(name); c.fillRect(x, y, dx, dy); },
    line: (name, x, y, u, v, width, dash = []) => {
      c.setLineDash(dash); c.strokeStyle = colour(name); c.lineWidth = width;
      c.beginPath(); c.moveTo(x, y); c.lineTo(u, v); c.stroke(); c.setLineDash([]);
    },
    say: (t, x, y, font, name, align) => {
      c.font = `${font}px system-ui,sans-serif`; c.textAlign = align; c.fillStyle = colour(name); c.fillText(t, x, y);
    } };
};
const LEFT = 50, TOP = 16, order = [...nodes].sort((a, b) => a.tree.is[0][2] - b.tree.is[0][2] || a.id - b.id);
const drawLanes = () => {
  const { c, w, h, box, line, say } = pen('space'), sx = roll.scrollLeft, top = floor(roll.top / high),
    at = (p) => LEFT + (p + 0.5) * scale - sx;
  const first = clamp(0, floor(sx / scale) - 1, E), final = clamp(0, floor((sx + w) / scale), E);
  const seen = (list) => list.slice(max(0, find(list, first)), find(list, final) + 1);
  const thin = max(1, high / 8), shown = lanes.slice(top, top + ceil(h / high) + 1);
  for (const v of nodes) v.lane = NaN;
  shown.forEach((v, k) => { v.lane = TOP + (top + k) * high - roll.top; });
  const runs = (s, draw) => { // the stretches of a series, those too short to be seen left out
    for (let k = max(0, find(s.at, first)), x = LEFT; k < s.at.length && s.at[k] <= final; k++) {
      const from = max(x, at(s.at[k] - 0.5)), to = min(w, at((k + 1 < s.at.length ? s.at[k + 1] : E + 1) - 0.5));
      if (to - from >= 0.3) { draw(s.is[k], from, to - from); x = to; }
    }
  };
  for (const v of shown) {
    runs(v.wave, (wave, x, dx) => {
      box(`s${wave.slice(1) % 6}`, x, v.lane, dx, high - (high > 6));
      const bar = max(1, high * { n: 0.14, i: 0.28, r: 0.42 }[wave[0]]); // the phase is told by the height too
      if (wave[0] !== 'n' || high > 8) box(wave[0], x, v.lane + (high - bar) / 2, dx, bar);
    });
    runs(v.fails, (items, x, dx) => { if (items.length) box('bad', x, v.lane + high - thin, dx, thin); });
    runs(v.up, (up, x, dx) => { if (!up) { box('ground', x, v.lane, dx, high);
      box('soft', x, v.lane + high / 2, dx, 1); } });
  }
  for (const p of seen(places.completion)) line('done', at(p + 0.5), TOP, at(p + 0.5),
    min(h, TOP + lanes.length * high), scale > 1 ? 2 : 1, [5, 3]);
  if (scale < 3) for (const p of seen(places.fault)) box('bad', at(p) - 1, where[p].lane, 2, max(3, high));
  else for (const marks of [false, true]) for (let p = max(1, first); p <= final; p++) {
    const m = letter(p), x = at(p), y = where[p].lane + high / 2, s = min(high / 2 - 1, scale / 2, 9),
      pale = /[TA]/.test(m);
    if (!marks) { // from the entry that set the phase that is answered
      const carry = s > 5 && /[JL]/.test(m) && flow(p), from = carry && carry[0].wave.at[find(carry[0].wave.at, p)];
      if (from) line(INK[m], at(from), carry[0].lane + high / 2, x, y, 1.3);
      continue;
    }
    c.beginPath();
    if (m === 'T') c.rect(x - s, y - s, 2 * s, 2 * s); else c.arc(x, y, s, 0, 7);
    c.fillStyle = colour(pale ? 'ground' : INK[m]); c.strokeStyle = colour('ink'); c.lineWidth = s > 3 ? 1 : 0.3;
    c.fill(); c.stroke();
    if (s > 5.5) say(sign(m), x, y + 0.5, '700 9', pale ? 'ink' : m === 'X' ? 'ground' : 'dark', 'center');
  }
  box('ground', 0, 0, LEFT, h); box('ground', 0, 0, w, TOP);
  const every = [1, 2, 5, 10, 20, 50, 100, 200, 500, 1e3, 2e3, 5e3, 1e4, 2e4].find((n) => n * scale > 46);
  for (let p = ceil(first / every) * every; p <= final;
    p += every) if (at(p) > LEFT) say(p, at(p), 8, 10, 'soft', 'center');
  if (high > 9) for (const v of shown) say(v.id, LEFT - 6, v.lane + high / 2, 11, 'ink', 'right');
};
const drawMarks = () => {
  const { c, w, h, box } = pen('marks'), at = (p) => 6 + (w - 12) * (E ? p / E : 0), flips = [...places.failing, E];
  box('panel', 0, 0, w, h);
  c.globalAlpha = 0.35;
  flips.forEach((p, k) => { if (k % 2) box('bad', at(flips[k - 1]), 0, max(1, at(p) - at(flips[k - 1])), h); });
  c.globalAlpha = 1;
  box('n', 0, h / 2 - 0.5, w, 1);
  for (const [kind, name, y] of [['completion', 'done', 0], ['fault', 'bad', h - 11], ['opening', 'wave', h / 2 - 5]]) {
    for (const p of places[kind]) box(name, at(p) - 1, y, 2, 11);
  }
};

// ---- Table and list, of which only the rows that are seen are there, and the other texts
const hint = (e, t) => { if (e.hint !== t) e.title = e.hint = t; };
const rowsOf = (id, rows, total, fresh, put) => {
  const { top, tall, firstElementChild: inner } = $(id), first = clamp(0, floor(top / 24) - 2, max(0, total - 1));
  const count = min(total - first, ceil(tall / 24) + 4);
  if (inner.first !== first) inner.style.paddingTop = `${24 * (inner.first = first)}px`;
  fill(rows, count, fresh, (row, k) => put(row, first + k));
};
const freshRow = () => make('tr', make('td', make('a')), ...Array.from({ length: 7 }, () => make('td')));
const drawTable = () => rowsOf('rows', $('body'), tabled.length, freshRow, (row, k) => {
  const v = tabled[k], up = get(v.up, now), w = get(v.wave, now),
    fails = failing(v, now).map((f) => f.row + (f.own ? '' : ` at ${f.to}`)).join(', ');
  const cells = up ? [...get(v.tree, now), PHASE[w[0]], w.slice(1), state(v, now), fails] : ['', '', '', 'down', '',
    '', ''];
  cells.forEach((cell, j) => write(row.children[j + 1], cell));
  for (const j of [6, 7]) hint(row.children[j], cells[j - 1].slice(0, 400)); // there may be no room for all of it
  write(row.firstChild.firstChild, (leaders(now).get(v) === v ? '\u265b ' : '') + v.id);
  mark(row, (v === where[now] ? 'here ' : '') + (v === chosen ? 'picked' : ''));
  set(row, { 'data-node': v.id, 'aria-rowindex': k + 2 }); set(row.firstChild.firstChild, { href: `#node=${v.id}` });
});
const freshLine = () => make('a', make('b'), make('i'), make('span'));
const drawList = () => rowsOf('list', $('list').firstElementChild, (found || text).length, freshLine, (a, k) => {
  const p = found ? found[k] : k, [b, i, span] = a.children;
  set(a, { href: `#entry=${p}` });
  mark(a, p === now ? 'here' : ''); mark(i, letter(p));
  write(b, `${p}`); write(i, sign(letter(p)));
    write(span, text[p] + (reports.has(p) ? ` complete ${reports.get(p)[0]}` : ''));
});
const drawText = () => {
  const m = letter(now),
    fails = all(now).map((f) => `${f.own ? 'node' : `link ${f.v.id} \u2192`} ${f.to}: ${f.row} ${f.name}`);
  if (fails.length > 50) fails.splice(50, fails.length, `and ${bad[now] - 50} more`);
  mark($('sign'), m); write($('sign'), sign(m)); $('line').lastChild.data = ` ${text[now]}`;
  write($('place'), `Entry ${now} of ${E}`); write($('tell'), tell(now)); write($('play'), speed ? 'Pause' : 'Play');
  set($('tell'), { 'aria-live': speed ? 'off' : 'polite' });
  mark($('fails'), bad[now] ? '' : 'none');
  const said = bad[now] ? fails : ['No local predicate fails.'];
  fill($('fails'), said.length, () => make('li'), (li, k) => write(li, said[k]));
  $('whole').toggleAttribute('hidden', !chosen);
  if (chosen) write($('whole'), show(chosen, now));
  $('scrub').value = now; $('scrub').ariaValueText = `${now}: ${text[now]}`;
  if (document.activeElement !== $('entry')) $('entry').value = now;
  for (const b of $('jumps').querySelectorAll('[data-jump]')) b.toggleAttribute('disabled', target(b) === undefined);
  Object.assign($('cursor').style, { left: `${LEFT + (now + 0.5) * scale - max(scale, 3) / 2}px`,
    width: `${max(scale, 3)}px` });
};

// ---- The moment
let waiting = false, noted = 0;
const frame = (time) => {
  const due = floor((time - since) * speed / 1000);
  waiting = false;
  if (due > 0) { since += due * 1000 / speed; go(now + due); if (now === E) play(0); }
  wake();
};
const wake = () => { if (!waiting && speed) { waiting = true; requestAnimationFrame(frame); } };
const bring = (box, y, height) => { // scrolls to what isn't seen
  if (y < box.top || y + height > box.top + box.tall - 24) { box.scrollTop = y - box.tall / 2; box.top = box.scrollTop;
    }
};
const go = (to) => {
  const p = clamp(0, floor(to) || 0, E), v = where[p], x = p * scale - roll.scrollLeft, gap = roll.clientWidth - LEFT;
  const smooth = p === now + 1 && speed < 6;
  now = p;
  if (x < 0 || x > gap - 12) roll.scrollLeft += x - gap * (speed ? 0.1 : 0.5);
  if (speed < 60) bring($('list'), (found ? find(found, p) : p) * 24, 24);
  if (speed < 6 && tabled.includes(v)) {
    bring($('rows'), tabled.indexOf(v) * 24, 48);
    if (high > 7) bring(roll, lanes.indexOf(v) * high, 2 * high); // thin lanes are an overview, which stays in place
  }
  drawText(); drawTable(); drawList(); drawNet(smooth);
  clearTimeout(noted);
  noted = setTimeout(() => {
    const filter = $('filter').value, words = new URLSearchParams({ entry: now, ...(chosen && { node: chosen.id }),
      ...(filter && { filter }) });
    history.replaceState(null, '', `#${words}`);
  }, 300);
};
const play = (to) => { speed = to; since = performance.now(); go(to && now === E ? 0 : now); wake(); };
const leap = (p) => { speed = 0; go(p); };
const target = ({ dataset: { jump, way } }) => { // the place before or after the moment
  const list = places[jump] || found || (chosen ? chosen.entries : []), k = find(list, now);
  return way > 0 ? list[k + 1] : list[list[k] === now ? k - 1 : k];
};
const measure = () => { for (const box of [roll, $('rows'), $('list')]) { box.top = box.scrollTop;
  box.tall = box.clientHeight; } };
const choose = (v) => { chosen = v === chosen ? null : v; drawText(); measure(); leap(now); };
const stretch = (by) => { // of the lanes
  const gap = roll.clientWidth - LEFT - 4, x = clamp(0, now * scale - roll.scrollLeft, gap);
  whole = gap / (E + 1);
  scale = clamp(min(whole, 48), by ? scale * by : whole < 5 && N < 40 ? 10 : whole, 48);
  high = clamp(3, floor((roll.clientHeight - TOP - 4) / lanes.length), 22);
  Object.assign(roll.firstElementChild.style, { width: `${LEFT + (E + 1) * scale}px`,
    height: `${TOP + lanes.length * high}px` });
  roll.scrollLeft = now * scale - (by ? x : gap / 2);
  measure(); drawLanes(); go(now);
};
const sift = () => { // nodes, ranges and ~node are for all views, words for the entries
  const ids = new Set(), words = [], held = (v) => !wanted || ids.has(v);
  for (const t of $('filter').value.toLowerCase().split(/[\s,]+/)) {
    const [, near, from, to] = t.match(/^(~?)(\d+)(?:-(\d+))?$/) || [];
    if (t && !from) words.push(t);
    for (const v of nodes) if (v.id >= +from && v.id <= +(to || from)) for (const u of [v,
      ...(near ? v.links.keys() : [])]) ids.add(u);
  }
  wanted = ids.size ? ids : null; tabled = nodes.filter(held); lanes = order.filter(held); found = null;
  if (wanted || words.length) {
    const all = wanted ? [...new Set([...ids].flatMap((v) => v.entries))].sort((a,
      b) => a - b) : [...text.keys()].slice(1);
    found = all.filter((p) => !words.length || words.some((t) => text[p].includes(t)));
  }
  $('list').firstElementChild.style.height = `${24 * (found || text).length}px`;
  $('rows').firstElementChild.style.height = `${24 * tabled.length + 24}px`;
  $('table').ariaRowCount = tabled.length + 1;
  speed = 0; stretch(scale && 1);
};
const repaint = () => { colours.clear(); drawMarks(); stretch(1); };

// ---- What the user does
const on = (e, type, act) => e.addEventListener(type, act), rate = () => +$('speed').value;
const hurry = (by) => { $('speed').selectedIndex = clamp(0, $('speed').selectedIndex + by, 6); if (speed) play(rate());
  };
const DO = { play: () => play(speed ? 0 : rate()), home: () => leap(0), back: () => leap(now - 1),
  step: () => leap(now + 1), last: () => leap(E),
  nearer: () => zoom(1.5), farther: () => zoom(1 / 1.5), wider: () => stretch(2), denser: () => stretch(0.5),
    help: () => $('help').showModal(),
  theme: () => { document.documentElement.style.colorScheme = colour('ground') === 'rgb(255, 255, 255)' ? 'dark'
    : 'light'; repaint(); } };
const KEYS = { PageUp: () => leap(now - 10), PageDown: () => leap(now + 10), Escape: () => chosen && choose(chosen),
  '+': () => hurry(1), '-': () => hurry(-1) };
for (const [kind, key] of Object.entries({ match: 'm', failing: 'x', completion: 'c', opening: 'o', fault: 'f' })) {
  const [last, next] = [['\u2039', -1, 'Previous', key.toUpperCase()],
    ['\u203a', 1, 'Next', key]].map(([sign, way, word, key]) => {
    const b = make('button', sign);
    Object.assign(b.dataset, { jump: kind, way, key });
    b.ariaLabel = `${word} ${kind}`;
    return b;
  });
  $('jumps').prepend(make('span', last, ` ${kind} `, next));
}
$('speed').value = E > 5000 ? 100 : E > 200 ? 20 : 2;
$('scrub').max = $('entry').max = E;
if (title) { write($('title'), title); document.title = title; }
write($('sum'), [`nodes: ${N}, links: ${ends.length}, application: ${app}, sessions modulo ${modulus};`,
  `entries: ${E}, faults: ${places.fault.length}, openings: ${places.opening.length},`,
  `completions: ${reports.size}`].join(' '));
on(document, 'click', (e) => {
  const b = e.target.closest('button'), v = e.target.closest('[data-node]');
  if (b && b.dataset.do) DO[b.dataset.do]();
  if (b && b.dataset.jump) leap(target(b));
  if (v) { e.preventDefault(); choose(byId.get(v.dataset.node)); }
});
on(document, 'keydown', (e) => {
  const field = e.target.closest('input:not(#scrub),select,dialog[open]'),
    b = document.querySelector(`[data-key="${CSS.escape(e.key)}"]`), act = KEYS[e.key];
  if (field && field.matches('input') && /^(Enter|Escape)$/.test(e.key)) field.blur();
  if (field || e.ctrlKey || e.metaKey || e.altKey || !(act || b) || (e.key === ' ' &&
    e.target.closest('button'))) return;
  e.preventDefault();
  if (act) act(); else if (b.select) b.select(); else b.click();
});
on($('scrub'), 'input', () => leap($('scrub').value)); on($('entry'), 'change', () => leap($('entry').value));
on($('speed'), 'change', () => hurry(0)); on($('filter'), 'input', sift);
for (const [box, act] of [[roll, drawLanes], [$('rows'), drawTable], [$('list'), drawList]]) {
  on(box, 'scroll', () => {
    const there = box !== roll && box.top === box.scrollTop; // `go` has scrolled there, and drawn
    box.top = box.scrollTop;
    if (!there) act();
  });
}
on(net, 'pointerover', (e) => {
  const g = e.target.closest('.node');
  if (g) write(g.firstChild, show(byId.get(g.dataset.node), now).slice(0, 400));
});
on(net, 'pointermove', (e) => { if (e.buttons && view.k > 1) { view.x -= e.movementX / view.k;
  view.y -= e.movementY / view.k; zoom(1); } });
on(net, 'wheel', (e) => {
  const box = net.getBoundingClientRect();
  if (e.ctrlKey || innerWidth > 960) { e.preventDefault();
    zoom(Math.exp(-e.deltaY / 400), e.clientX - box.left, e.clientY - box.top); }
});
for (const type of ['click', 'pointermove']) on(roll, type, (e) => {
  const box = roll.getBoundingClientRect(), x = e.clientX - box.left, p = floor((x - LEFT + roll.scrollLeft) / scale),
    inside = x > LEFT && p <= E;
  const v = lanes[floor((e.clientY - box.top - TOP + roll.top) / high)];
  if (type === 'pointermove') roll.title = (inside ? `${p}: ${text[p]}; ` : '') + (v ? show(v,
    inside ? p : now).slice(0, 400) : '');
  else if (inside) leap(p); else if (v) choose(v);
});
const hash = () => {
  const words = new URLSearchParams(location.hash.slice(1));
  chosen = byId.get(words.get('node')) || chosen;
  now = clamp(0, floor(words.get('entry')) || 0, E);
  $('filter').value = words.get('filter') || $('filter').value;
  sift();
};
on(window, 'hashchange', hash); on(window, 'resize', () => { // what was shown whole is shown whole
  const by = scale > whole ? 1 : 1e-9;
  fit(); repaint(); stretch(by);
});
  on(matchMedia('(prefers-color-scheme:dark)'), 'change', repaint);
document.body.style.setProperty('--rows', N);
fit(); drawMarks(); hash();
})();
</script>
"#;
