// What stands after the data on all pages, first part: the script that reads it and computes what holds at a moment.

/// What stands after the data on all pages, first part: the script that reads it and computes what holds at a moment.
pub const MOMENTS: &[u8] = br#"</script>
<script>
'use strict';
(() => {
const $ = (id) => document.getElementById(id), { min, max, floor, ceil, hypot, sqrt, sin, cos, atan2, PI } = Math;
const clamp = (least, x, most) => max(least, min(x, most));
addEventListener('error', (e) => { $('tell').textContent = `The page can't go on: ${e.message}`; });

// ---- The data. A series is one thing in time: is[k] from position at[k] on; k is where it was looked at last.
const series = (...is) => ({ at: is.map(() => 0), is, k: 0 });
const put = (s, p, value) => { s.at.push(p); s.is.push(value); };
const find = (at, p) => { // the last index whose position isn't after p, or -1
  let low = 0, high = at.length;
  while (low < high) { const mid = (low + high) >> 1; if (at[mid] > p) high = mid; else low = mid + 1; }
  return low - 1;
};
const get = (s, p) => { // mostly asked for a moment beside the last one
  const { at, k } = s;
  if (!(at[k] <= p) || at[k + 1] <= p) s.k = find(at, p);
  return s.is[s.k];
};
const decode = (line) => (line.includes('%')
  ? new TextDecoder().decode(Uint8Array.from(line.match(/%..|[^]/g),
    (b) => (b[1] ? parseInt(b.slice(1), 16) : b.charCodeAt()))) : line);
const lines = $('history').textContent.split('\n').slice(1).map(decode), byId = new Map(), links = [],
  title = lines[1].slice(6);
const [[app], [modulus], ids, ends] = lines.slice(2, 6).map((line) => line.split(' ').slice(1));
if (lines[0] !== 'reset-page 1') throw Error('its data is of another version');
const nodes = ids.map((id, k) => ({ id, k, entries: [], links: new Map(),
  tree: series(), wave: series(), local: series(), up: series(true), fails: series([]) }));
for (const v of nodes) byId.set(v.id, v);
const link = (a, b, up) => {
  if (!a.links.has(b)) { const s = series(up); a.links.set(b, s); b.links.set(a, s); links.push({ a, b, s }); }
  return a.links.get(b);
};
for (const pair of ends) link(...pair.split('-').map((id) => byId.get(id)), true);
// bad: how many rows fail; turns: where links change
const text = ['opening'], where = [null], bad = [0], turns = [0], reports = new Map();
const places = { fault: [], opening: [], completion: [], failing: [] };
for (let p = 0, n = 6; ; n++) {
  const [line, ...fields] = lines[n].split(';'), [c, a, b, d] = line.split(' '), v = byId.get(c === 'fault' ? b : a);
  if (c === 'end') { if (Number(a) !== p) throw Error('entries are wanting'); break; }
  if (c !== 'boot') { text[++p] = line; where[p] = v; bad[p] = bad[p - 1]; v.entries.push(p); }
  if (p === 1 && bad[0]) places.failing.push(0);
  if (c === 'open') places.opening.push(p);
  if (c === 'fault') places.fault.push(p);
  if (/^fault (up|down|on|off)/.test(line)) {
    turns.push(p);
    if (d) { put(link(v, byId.get(d), false), p, a === 'up'); byId.get(d).entries.push(p); }
    else { put(v.up, p, a === 'on'); for (const s of v.links.values()) put(s, p, false); }
  }
  for (const field of fields) {
    const rest = field.slice(1).split(' '), u = byId.get(rest[0]);
    switch (field[0]) {
      case 't': put(v.tree, p, rest); break;
      case '=': put(v.local, p, field.slice(1)); break;
      case 'd': v.up = series(false); v.tree = series(['0', '0', '0']); v.wave = series('n0'); v.local = series('-');
        break;
      case '*': reports.set(p, rest); places.completion.push(p); break;
      case '!': bad[p] += rest.length - 1 - get(u.fails, p).length; put(u.fails, p, rest.slice(1)); break;
      default: put(v.wave, p, field);
    }
  }
  if (p && !bad[p] !== !bad[p - 1]) places.failing.push(p);
}
const E = text.length - 1, N = nodes.length;

// ---- What holds at a moment
const PHASE = { n: 'normal', i: 'initiate', r: 'reset' };
const joined = (v, u, p) => v.links.has(u) && get(v.links.get(u), p);
const father = (v, p) => { const u = byId.get(get(v.tree, p)[1]); return joined(v, u, p) ? u : null; };
let turn = -1, led;
const leaders = (p) => { // of each node that is up the greatest of its component
  const k = find(turns, p);
  if (k !== turn) {
    turn = k; led = new Map();
    for (const v of [...nodes].reverse()) if (get(v.up, p) && !led.has(v)) {
      led.set(v, v);
      for (const stack = [v]; stack.length;) {
        for (const [u, s] of stack.pop().links) if (get(s, p) && !led.has(u)) { led.set(u, v); stack.push(u); }
      }
    }
  }
  return led;
};
const state = (v, p) => get(v.local, p);
const show = (v, p) => {
  const w = get(v.wave, p);
  if (!get(v.up, p)) return `node ${v.id} is down`;
  return `node ${v.id} tree ${get(v.tree, p).join(' ')} wave ${PHASE[w[0]]} ${w.slice(1)} local ${state(v, p)}`;
};
const ROWS = { t: 'tree claim-low claim-self claim-stray claim-far follow-root follow-dist adopt-root adopt-short',
  w: 'wave - - - - - - - mend-reset mend-number mend-both mend-late',
  a: { token: 'app two-hold hold-and-flight two-flights', mutex: 'app two-in no-turn',
    routes: 'app no-entry not-nearer' }[app] };
const failing = (v, p) => get(v.fails, p).map((item) => {
  const [, to, family, row] = item.match(/(\d+)(.)(\d+)/), names = ROWS[family].split(' ');
  return { v, to, own: to === v.id, row: `${names[0]} ${row}`, name: names[row], deep: family !== 'a' };
});
const all = (p) => (bad[p] ? nodes.flatMap((v) => failing(v, p)) : []);
const flow = (p) => { // the two nodes between which an entry carries something
  const v = where[p], [c, , x, y] = text[p].split(' '), up = v && father(v, p), u = byId.get(c === 'act' ? y : x);
  if (up && /join|mend|follow/.test(c)) return [up, v];
  if (up && c === 'finish') return [v, up];
  if (/^fault (up|down)/.test(text[p])) return [v, byId.get(y)];
  return u && c !== 'fault' ? (app + x === 'token1' ? [v, u] : [u, v]) : null;
};
const TELL = { claim: 'Node 1 claims to be a root.', follow: 'Node 1 takes root and distance from its father F.',
  adopt: 'Node 1 adopts node 2 as its father.', request: 'Node 1 asks for a reset.',
    relay: 'Node 1 passes on the request of its child 2.',
  open: 'Node 1, a root, opens session S and restarts.', join: 'Node 1 joins session S of its father F, and restarts.',
  finish: 'Node 1 finishes session S, as all its children have.',
    mend: 'Node 1 takes phase and session from its father F.',
  tree: 'A fault overwrites the tree registers of node 2.', wave: 'A fault overwrites the wave registers of node 2.',
  local: 'A fault overwrites the local state of node 2.', down: 'The link of 2 and 3 goes down.',
    up: 'A link of 2 and 3 comes up.',
  off: 'Node 2 goes down, and its links with it.', on: 'Node 2 comes up, without links.',
  token1: 'Node 1 passes its token to node 3.', token2: 'Node 1 takes the token from node 3.',
  mutex1: 'Node 1 enters: it has the turn of each link.', mutex2: 'Node 1 leaves, and hands its turns on.',
  routes1: 'Node 1 takes better routes from node 3.' };
const plain = !bad[0] && nodes.every((v) => get(v.up, 0) && get(v.wave, 0) === 'n0'); // the opening may be a booted one
const tell = (p) => {
  if (!p) return plain ? 'The tree stands, nobody has asked for a reset, and all are in session 0.'
    : 'The history starts from this snapshot.';
  const w = text[p].split(' '), v = where[p], words = { ...w, F: get(v.tree, p)[1], S: get(v.wave, p).slice(1) },
    r = reports.get(p);
  const what = TELL[{ act: app + w[2], fault: w[1] }[w[0]] || w[0]].replace(/\b[123FS]\b/g, (key) => words[key]);
  if (!r) return what;
  const sure = all(p - 1).some((f) => f.deep) ? 'not vouched for, as rows of tree or wave failed' : 'vouched for';
  return `${what} Reset ${r[0]} is complete${r[1] === '-' ? '' : `, opened at entry ${r[1]}`}; it is ${sure}.`;
};

// ---- Where nodes stand: distances are kept as well as it goes (stress, by stochastic descent); a path is folded into
// rows
const near = nodes.map((v) => [...v.links].filter(([, s]) => get(s, 0)).map(([u]) => u.k));
const xs = new Float64Array(N), ys = new Float64Array(N), far = new Uint16Array(N * N),
  pairs = new Uint32Array(N * (N - 1) / 2);
let seed = 7, most = 1;
const random = () => (seed = (Math.imul(seed, 1664525) + 1013904223) >>> 0) / 2 ** 32;
const relax = (x, y, times, rule) => {
  for (let time = 0; time < times; time++) for (let k = 0, move = rule(time / times); k < pairs.length; k++) {
    const i = floor(pairs[k] / N), j = pairs[k] % N, dx = x[i] - x[j], dy = y[i] - y[j];
    const d = sqrt(dx * dx + dy * dy) || 1e-6, by = move(d, far[pairs[k]]) / d / 2;
    if (by) { x[i] += dx * by; y[i] += dy * by; x[j] -= dx * by; y[j] -= dy * by; }
  }
};
for (let i = 0, k = 0; i < N; i++) {
  const queue = [i];
  for (const a of queue) for (const b of near[a]) if (b !== i &&
    !far[i * N + b]) { far[i * N + b] = far[i * N + a] + 1; queue.push(b); }
  for (let j = 0; j < i; j++, k++) { const l = floor(random() * (k + 1)); pairs[k] = pairs[l]; pairs[l] = i * N + j; }
  most = max(most, far[i * N + queue.pop()]);
}
const path = most === N - 1 && N > 2;
for (const k of xs.keys()) { xs[k] = random() * most; ys[k] = random() * most; }
if (!path) relax(xs, ys, N > 400 ? 20 : 60, (time) => {
  const heat = most ** 2 * (20 * most ** 2) ** -time;
  return (d, want) => { want ||= most * 1.3; return (want - d) * min(1, heat / want / want); };
});

"#;
