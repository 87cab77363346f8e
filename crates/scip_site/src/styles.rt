//! The style sheet, and the script that searches.

/// The style sheet of all pages.
pub(crate) const STYLE: &str = "\
:root { color-scheme: light dark; --ink: #1f2328; --soft: #59636e; --ground: #fff; --panel: #f6f8fa; --line: #d1d9e0; --link: #0757b8; --mark: #fff3c4; }
@media (prefers-color-scheme: dark) { :root { --ink: #e6e9ed; --soft: #9aa4af; --ground: #0f1318; --panel: #171c23; --line: #333b45; --link: #7db7ff; --mark: #4a3d10; } }
* { box-sizing: border-box; }
html { scroll-padding-top: 4rem; }
body { margin: 0; color: var(--ink); background: var(--ground); font: 16px/1.5 system-ui, sans-serif; }
a { color: var(--link); }
a:focus-visible, summary:focus-visible, input:focus-visible { outline: 2px solid var(--link); outline-offset: 2px; }
header { position: sticky; top: 0; z-index: 1; padding: .6rem 1rem; background: var(--panel); border-bottom: 1px solid var(--line); }
header a { text-decoration: none; }
header a:hover { text-decoration: underline; }
nav > a { margin-right: 1rem; }
nav span { overflow-wrap: anywhere; }
main { display: grid; grid-template-columns: minmax(0, 1fr) minmax(18rem, 30%); }
main.first { display: block; padding: .5rem 1rem 3rem; }
pre { margin: 0; padding: .75rem 1rem 3rem 0; overflow-x: auto; counter-reset: line; font: 14px/1.6 ui-monospace, 'DejaVu Sans Mono', monospace; tab-size: 4; }
pre a[id] { counter-increment: line; display: inline-block; width: 4.5em; padding-right: 1.25em; color: var(--soft); text-align: right; user-select: none; }
pre a[id]::before { content: counter(line); }
pre a[id]:target { background: var(--mark); color: var(--ink); font-weight: bold; }
pre a[title] { color: inherit; text-decoration: none; border-radius: 3px; }
pre a[title][href] { color: var(--link); }
pre a[title]:hover { background: var(--mark); }
pre a[title][href]:hover { text-decoration: underline; }
pre a[title]:focus-visible::after { content: attr(title); position: fixed; inset: auto 0 0; z-index: 2; max-height: 40vh; overflow: hidden; padding: .6rem 1rem; color: var(--ink); background: var(--panel); border-top: 1px solid var(--line); font: 14px/1.5 system-ui, sans-serif; white-space: pre-wrap; overflow-wrap: anywhere; }
aside { position: sticky; top: 2.8rem; max-height: calc(100vh - 2.8rem); overflow-y: auto; padding: .75rem 1rem 3rem; border-left: 1px solid var(--line); background: var(--panel); font-size: 14px; }
aside h2 { margin: 0 0 .5rem; font-size: 14px; color: var(--soft); font-weight: 600; }
dl { margin: 0; }
dt { margin-top: .75rem; padding: .15rem .35rem; border-radius: 3px; overflow-wrap: anywhere; scroll-margin-top: 1rem; }
dt:target { background: var(--mark); }
dt a { text-decoration: none; color: inherit; }
dt a:hover b { text-decoration: underline; }
dt span { font: 12px/1.5 ui-monospace, 'DejaVu Sans Mono', monospace; color: var(--soft); white-space: pre-wrap; }
dd { margin: 0 0 0 1.25rem; overflow-wrap: anywhere; }
ul { margin: 0; padding-left: 1.25rem; list-style: none; }
#tree { padding-left: 0; }
#tree li, #found li { padding: .1rem 0; overflow-wrap: anywhere; }
summary { cursor: pointer; }
#found { padding: 0 0 .75rem; }
#found span { color: var(--soft); margin-left: .75rem; }
input { width: min(40rem, 100%); margin-top: .5rem; padding: .5rem .75rem; font: inherit; color: inherit; background: var(--ground); border: 1px solid var(--line); border-radius: 6px; }
@media (max-width: 60rem) { main { display: block; } pre { font-size: 13px; } pre a[id] { width: 3.2em; padding-right: .9em; } aside { position: static; max-height: none; border-left: 0; border-top: 1px solid var(--line); } }
";

/// The script that searches the list of symbols.
pub(crate) const SEARCH: &str = "\
'use strict';
(() => {
  const query = document.getElementById('query');
  const found = document.getElementById('found');
  const MOST = 100;
  const entry = (url, text, place) => {
    const item = document.createElement('li');
    const link = document.createElement('a');
    link.href = url;
    link.textContent = text;
    const behind = document.createElement('span');
    behind.textContent = place;
    item.append(link, behind);
    return item;
  };
  // The names in a text, from the outermost: `library/Book#Copy#` is `.library.book.copy.`.
  const dotted = (text) => ('.' + text.toLowerCase()).replace(/[/#.:!`()[\\]]+/g, '.');
  // Of a definition: 0 if its name, or those of its symbol from one of them on, begin with what is wanted; 1 if that is
  // further inside; -1 if it isn't there.
  const rank = (name, symbol, wanted, within) => {
    const at = name.toLowerCase().indexOf(wanted);
    if (at >= 0) return at === 0 ? 0 : 1;
    if (within === '') return -1;
    const whole = dotted(symbol);
    const inside = whole.lastIndexOf(within);
    if (inside < 0) return -1;
    return whole.slice(inside + within.length, -1).includes('.') ? 1 : 0;
  };
  const search = () => {
    const wanted = query.value.trim().toLowerCase();
    const within = /[.#]/.test(wanted) ? dotted(wanted) : '';
    const ranks = [[], [], []];
    if (wanted !== '') {
      for (const [url, path, names] of sources) {
        if (path.toLowerCase().includes(wanted)) ranks[2].push([url, path, '']);
        for (const [line, name, symbol] of names) {
          const fit = rank(name, symbol, wanted, within);
          if (fit >= 0) ranks[fit].push([url + '#L' + line, name, path + ':' + line]);
        }
      }
    }
    const all = ranks.flat();
    const items = all.slice(0, MOST).map((one) => entry(...one));
    if (wanted !== '' && all.length === 0) items.push('Nothing found.');
    if (all.length > MOST) items.push('and ' + (all.length - MOST) + ' more');
    found.replaceChildren(...items);
  };
  query.addEventListener('input', search);
  query.addEventListener('keydown', (event) => {
    const first = found.querySelector('a');
    if (event.key === 'Enter' && first) first.click();
    if (event.key === 'Escape') { query.value = ''; search(); }
  });
  document.addEventListener('keydown', (event) => {
    if (event.key === '/' && document.activeElement !== query) { event.preventDefault(); query.focus(); }
  });
  search();
})();
";
