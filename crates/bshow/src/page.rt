//! The fixed parts of a page, which tools/show-page makes of page/page.html.

/// Before the rows.
#[rattlefmt::skip]
pub const HEAD: &[u8] = b"\
<!doctype html>\n\
<html lang=\"en\">\n\
<meta charset=\"utf-8\">\n\
<meta name=\"viewport\" content=\"width=device-width, initial-scale=1\">\n\
<meta http-equiv=\"Content-Security-Policy\"\n\
\x20 content=\"default-src 'none'; style-src 'unsafe-inline'; script-src 'unsafe-inline'\">\n\
<title>A run of a program in B</title>\n\
<style>\n\
:root {\n\
\x20 color-scheme: light dark;\n\
\x20 --ink: #1a1a1a; --ground: #fff; --line: #767676; --now: #ffe58a; --past: #e3e9f5; --new: #b9e6b9; --soft: #f1f1f1;\n\
\x20 --aim: #bcd9ff; --stop: #ffd0cc;\n\
}\n\
@media (prefers-color-scheme: dark) {\n\
\x20 :root { --ink: #ededed; --ground: #151515; --line: #8c8c8c; --now: #5b4a00; --past: #29303f; --new: #1d4d24;\n\
\x20   --soft: #262626; --aim: #123f73; --stop: #6b1f1a }\n\
}\n\
* { box-sizing: border-box }\n\
body {\n\
\x20 margin: 0 auto; max-width: 100rem; padding: .3rem .5rem;\n\
\x20 font: 1rem/1.4 system-ui, sans-serif; color: var(--ink); background: var(--ground);\n\
}\n\
h1 { font-size: 1.2rem; margin: 0 1rem 0 0 }\n\
h2 { font-size: 1rem; margin: .4rem 0 .2rem }\n\
p { margin: .3rem 0 }\n\
pre, code, table, .words, .cells { font-family: ui-monospace, monospace; font-size: .9rem }\n\
pre {\n\
\x20 white-space: pre-wrap; overflow-wrap: anywhere; margin: 0; min-height: 1.8em;\n\
\x20 border: 1px solid var(--line); padding: .2rem .4rem;\n\
}\n\
#source { overflow: auto; padding: 0; position: relative }\n\
#source > div { padding: 0 .4rem 0 4.2rem; text-indent: -3.8rem }\n\
#source > div::before { content: \"  \"; white-space: pre }\n\
#source button { all: unset; cursor: pointer; white-space: pre; text-indent: 0 }\n\
#source button:focus-visible { outline: 3px solid #2a7ae2 }\n\
#source button[aria-pressed=\"true\"] { background: var(--aim); font-weight: bold; text-decoration: underline }\n\
#source .past, #legend .past { background: var(--past) }\n\
#source [aria-current], #legend .now { background: var(--now); outline: 1px solid var(--line); outline-offset: -1px }\n\
#source .stop, #legend .stop, #end.stop, #right .stop { background: var(--stop) }\n\
#source .past::before { content: \"\\2713\\0020\" }\n\
#source [aria-current]::before { content: \"\\25b6\\0020\" }\n\
#source .stop::before { content: \"\\2715\\0020\" }\n\
#source .file { font-weight: bold }\n\
#legend { margin: .1rem 0; font-size: .9rem; min-height: 1.4em }\n\
#legend span { padding: 0 .3rem }\n\
#controls { background: var(--ground); border-bottom: 1px solid var(--line) }\n\
#told { display: flex; flex-wrap: wrap; gap: 0 1rem; align-items: baseline }\n\
#told p { margin: 0; font-weight: bold; padding: 0 .3rem }\n\
a { color: inherit }\n\
#at, #visit { width: 100%; margin: .2rem 0 }\n\
[hidden] { display: none !important }\n\
button {\n\
\x20 font: inherit; color: inherit; background: var(--soft);\n\
\x20 min-height: 2.2rem; padding: 0 .6rem; margin: .1rem 0; border: 1px solid var(--line); border-radius: .3rem;\n\
}\n\
label { white-space: nowrap }\n\
:focus-visible { outline: 3px solid #2a7ae2; outline-offset: 1px }\n\
mark { background: var(--new); color: inherit; font-weight: bold; text-decoration: underline }\n\
.aim { background: var(--aim); outline: 2px solid var(--line) }\n\
.words { display: flex; flex-wrap: wrap; gap: .2rem }\n\
.words > span, .cells > span > span { border: 1px solid var(--line); padding: 0 .3rem }\n\
.cells { display: flex; overflow-x: auto; margin: .2rem 0; padding-bottom: .1rem }\n\
.cells > span { display: flex; flex-direction: column; align-items: center }\n\
.cells > span > span { display: flex; flex-direction: column; align-items: center; align-self: stretch }\n\
.cells > span + span > span { border-left: 0 }\n\
.cells small, .cells > span { white-space: nowrap }\n\
.cells .index { font-weight: bold; color: var(--ink) }\n\
.words small, .cells small, #memory small { opacity: .85 }\n\
.words i, .cells i, .gave i { font-style: normal; overflow-wrap: anywhere }\n\
.words i::before, .gave i::before { content: \" \" }\n\
.unset { font-weight: normal; font-style: italic; opacity: .85 }\n\
.gave { margin-left: .5rem }\n\
#right { position: relative }\n\
#arrows { position: absolute; top: 0; left: 0; z-index: 2; overflow: visible; pointer-events: none }\n\
#arrows path { fill: none; stroke: currentColor; stroke-width: 1.5 }\n\
#ask { background: var(--aim); border: 1px solid var(--line); margin: .2rem 0; padding: .2rem .4rem }\n\
#ask input { font: inherit; width: 10rem; min-height: 2rem }\n\
#asked:empty { display: none }\n\
#about { position: sticky; bottom: 0; z-index: 1; background: var(--ground); border-top: 1px solid var(--line) }\n\
#about:empty { display: none }\n\
ol { margin: 0; padding-left: 1.6rem }\n\
table { border-collapse: collapse }\n\
th, td { border: 1px solid var(--line); padding: 0 .4rem; text-align: left; vertical-align: top }\n\
#memory table { width: 100%; table-layout: fixed }\n\
#memory th { width: 6.5rem; overflow-wrap: anywhere }\n\
.scroll { overflow: auto }\n\
@media (scripting: enabled) { #all:not(.shown) > .scroll { display: none } }\n\
@media (min-width: 48rem) {\n\
\x20 #view { display: flex; flex-direction: column; height: calc(100vh - .6rem); min-height: 24rem }\n\
\x20 #parts {\n\
\x20   flex: 1; min-height: 0; display: grid; gap: 0 1rem; grid-template-columns: minmax(0, 1fr) minmax(0, 1fr);\n\
\x20   grid-template-rows: minmax(0, 1fr);\n\
\x20 }\n\
\x20 #left { display: flex; flex-direction: column; min-height: 0 }\n\
\x20 #source { flex: 1 1 8rem; min-height: 5rem }\n\
\x20 #output { flex: 0 1 auto; min-height: 2.9rem; max-height: 9rem; overflow: auto }\n\
\x20 #input { flex: 0 1 auto; max-height: 4.5rem; overflow: auto }\n\
\x20 #right { overflow: auto; padding: 0 .3rem .5rem }\n\
}\n\
@media (max-width: 48rem) {\n\
\x20 #controls { position: sticky; top: 0; z-index: 3; padding: .1rem 0 }\n\
\x20 #source { max-height: 26vh }\n\
\x20 #output { max-height: 14vh; overflow: auto }\n\
\x20 #input { max-height: 5rem; overflow: auto }\n\
\x20 #memory th { width: 4.5rem }\n\
}\n\
@media (max-width: 30rem) {\n\
\x20 h1 { font-size: 1rem }\n\
\x20 h2 { margin: .3rem 0 .1rem }\n\
\x20 button { font-size: .85rem; padding: 0 .35rem; min-height: 2rem }\n\
\x20 #keys { display: none }\n\
}\n\
@media print {\n\
\x20 :root { color-scheme: light; --ink: #000; --ground: #fff; --line: #767676; --now: #ffe58a; --past: #e3e9f5;\n\
\x20   --new: #b9e6b9; --stop: #ffd0cc }\n\
\x20 #controls button, #controls label, #controls input, #link, #keys, #view:not([hidden]) ~ #all { display: none }\n\
\x20 #controls { position: static }\n\
\x20 #view, #left { display: block; height: auto }\n\
\x20 #source, #output, #input { max-height: none; overflow: visible }\n\
\x20 #right, .cells { overflow: visible }\n\
\x20 .cells { flex-wrap: wrap }\n\
\x20 mark, [aria-current], .past, .stop { -webkit-print-color-adjust: exact; print-color-adjust: exact }\n\
}\n\
</style>\n\
<h1 id=\"title\">A run of a program in B</h1>\n\
<noscript><p>Without scripts this page is a table: one row for each step of the run.</p></noscript>\n\
<div id=\"view\" hidden>\n\
<div id=\"controls\">\n\
<div id=\"told\">\n\
<output id=\"step\" aria-live=\"polite\"></output>\n\
<a id=\"link\" href=\"#s=1\">link to this step</a>\n\
</div>\n\
<div id=\"gloss\" hidden></div>\n\
<input id=\"visit\" type=\"range\" min=\"0\" value=\"0\" aria-label=\"Line of the run\">\n\
<input id=\"at\" type=\"range\" min=\"0\" value=\"0\" aria-label=\"Step\" hidden>\n\
<button data-go=\"first\">First</button>\n\
<button data-go=\"previous\">Previous line</button>\n\
<button data-go=\"line\">Next line</button>\n\
<button data-go=\"over\">Over calls</button>\n\
<button data-go=\"out\">Out of this call</button>\n\
<button data-go=\"stop\">Next stop</button>\n\
<button data-go=\"write\">To the next write</button>\n\
<button data-go=\"last\">Last</button>\n\
<button data-go=\"back\" hidden>Back</button>\n\
<button data-go=\"on\" hidden>Step</button>\n\
<label><input id=\"single\" type=\"checkbox\"> Instructions</label>\n\
<label><input id=\"all-arrows\" type=\"checkbox\"> Arrows</label>\n\
<label><input id=\"asks\" type=\"checkbox\"> Ask me</label>\n\
<div id=\"ask\" hidden>\n\
<label><span id=\"question\"></span> <input id=\"answer\" autocomplete=\"off\"></label>\n\
<button id=\"reply\">Answer</button>\n\
<button id=\"tell\">Tell me</button>\n\
</div>\n\
<p id=\"asked\" role=\"status\"></p>\n\
</div>\n\
<div id=\"parts\">\n\
<div id=\"left\">\n\
<h2>Source</h2><pre id=\"source\" tabindex=\"0\" aria-label=\"Source\"></pre>\n\
<p id=\"legend\"></p>\n\
<h2>Output so far</h2><pre id=\"output\" tabindex=\"0\" aria-label=\"Output so far\"></pre>\n\
<div id=\"input-part\"><h2>Input</h2><pre id=\"input\"></pre></div>\n\
</div>\n\
<div id=\"right\" tabindex=\"0\" role=\"group\" aria-label=\"Calls and memory\">\n\
<div id=\"single-parts\" hidden><h2>Operands, the topmost last</h2><div id=\"operands\" class=\"words\"></div></div>\n\
<h2>Active calls, the running one first</h2><ol id=\"calls\"></ol>\n\
<div id=\"memory-part\"><h2>Memory</h2><div id=\"memory\"></div></div>\n\
<p>A word is a number. After it stands what it was made as: where an address leads, the name of a function or a label,\n\
or a character that was read or that stands so in its line. That goes by the steps that made it, and where these aren't\n\
here, by what lies at that address. A word can always be meant otherwise: a click on it tells all that it can be. Marked\n\
is what was stored since the position shown before. Below a vector stand its indices, and the words used as one.</p>\n\
<p id=\"keys\">Keys: Left and Right a line, or a step of instructions, with Shift ten; Home, End; P and L previous and\n\
next line, O over calls, U out of this call, S next stop, W to the next write, I instructions, A arrows, Q ask me. A\n\
click on the number of a line makes it a stop. <em>Ask me</em> asks at each stop, or at each line where there are no\n\
stops, what comes before it is shown. An address may be told as &amp;x, and a character as 'a'.</p>\n\
<p id=\"about\" aria-live=\"polite\"></p>\n\
<svg id=\"arrows\" width=\"1\" height=\"1\" aria-hidden=\"true\"></svg>\n\
</div>\n\
</div>\n\
</div>\n\
<details id=\"all\" open>\n\
<summary>All steps as a table</summary>\n\
<p>A row tells the machine before a step, and then what the step did: the address from which on it stored words,\n\
the words there before, the words that it stored, what it read, and what it wrote. Lines are counted through all\n\
files.</p>\n\
<div class=\"scroll\">\n\
<table id=\"steps\">\n\
<thead><tr><th>step<th>function<th>place<th>line<th>code<th>operands<th>calls below<th>frame\n\
<th>address<th>before<th>stored<th>read<th>written</thead>\n\
<tbody>\n\
";

/// Between the rows and the sentence that tells how the run ended.
#[rattlefmt::skip]
pub const BETWEEN: &[u8] = b"\
</tbody>\n\
</table>\n\
</div>\n\
</details>\n\
<p id=\"end\">";

/// Between that sentence and the facts.
#[rattlefmt::skip]
pub const SCRIPT: &[u8] = b"\
</p>\n\
<script type=\"application/json\" id=\"facts\">";

/// After the facts.
#[rattlefmt::skip]
pub const TAIL: &[u8] = b"\
</script>\n\
<script>\n\
\"use strict\";\n\
const $ = id => document.getElementById(id);\n\
const facts = JSON.parse($(\"facts\").textContent);\n\
\n\
// Texts come byte by byte. They are shown as UTF-8: control characters by their pictures, and by U+FFFD what is no\n\
// character or turns the direction of a text.\n\
const decoder = new TextDecoder(\"utf-8\", { ignoreBOM: true });\n\
function shown(bytes) {\n\
\x20 const picture = c => String.fromCharCode(c === \"\\x7f\" ? 0x2421 : 0x2400 + c.charCodeAt(0));\n\
\x20 return decoder.decode(Uint8Array.from(bytes, c => c.charCodeAt(0)))\n\
\x20   .replace(/[\\0-\\x08\\x0b-\\x1f\\x7f]/g, picture)\n\
\x20   .replace(/[\\u200e\\u200f\\u202a-\\u202e\\u2066-\\u2069]/g, \"\\ufffd\");\n\
}\n\
\n\
// The rows: the call before each step, and what the step did. A last one with fewer cells is a step not made.\n\
const rows = [...$(\"steps\").tBodies[0].rows].map(({ cells }) => {\n\
\x20 const number = k => Number(cells[k].textContent);\n\
\x20 const text = k => JSON.parse(`\"${cells[k]?.textContent ?? \"\"}\"`);\n\
\x20 const list = k => JSON.parse(cells[k]?.textContent ?? \"[]\");\n\
\x20 return {\n\
\x20   step: number(0), name: text(1), place: number(2), line: number(3), code: text(4), operands: list(5),\n\
\x20   depth: number(6), start: number(7), isMade: cells.length > 8, address: cells[8] && number(8), before: list(9),\n\
\x20   stored: list(10), read: text(11), written: text(12), below: null, began: undefined,\n\
\x20 };\n\
});\n\
const made = rows.filter(row => row.isMade).length;\n\
\n\
// The definitions as they lie: of a function the words of its frame with their names, and its value; of an external\n\
// the words before its strings. A vector has its size in a list.\n\
const end = facts.definitions.pop();\n\
facts.frames.pop();\n\
const functions = new Map(), values = new Map();\n\
[\"char\", \"lchar\", \"getchar\", \"putchar\", \"printn\", \"exit\"].forEach((name, k) => values.set(k + 1, name));\n\
const spots = facts.definitions.map(([from, name, size, frame], k) => {\n\
\x20 const to = facts.definitions[k + 1]?.[0] ?? end;\n\
\x20 if (frame === undefined) {\n\
\x20   const own = Array.isArray(size) ? 1 + size[0] : size;\n\
\x20   return { from, to, name, texts: from + own, isVector: Array.isArray(size) };\n\
\x20 }\n\
\x20 const names = facts.frames.shift() ?? [];\n\
\x20 names.pop();\n\
\x20 functions.set(name, { address: from, parameters: size, frame, names });\n\
\x20 values.set(6 + functions.size, name);\n\
\x20 return { from, to, name, texts: from + 1, isFunction: true };\n\
});\n\
\n\
// The calls below each one, as a chain, and by which row a call began, where that is known. Those that were there\n\
// before the first row are told by the row after their\n\
// callee returned, or at the step for which all calls are told.\n\
function fill(call, name, start) {\n\
\x20 if (call && call.name === undefined) Object.assign(call, { name, start });\n\
}\n\
let unknown = null;\n\
for (let k = 0; k < (rows[0]?.depth ?? 0); k++) unknown = { below: unknown };\n\
rows.forEach((row, k) => {\n\
\x20 const last = rows[k - 1];\n\
\x20 if (!last) Object.assign(row, { below: unknown, began: row.step === 1 ? 0 : undefined });\n\
\x20 else if (row.depth > last.depth) Object.assign(row, { below: last, began: k - 1 });\n\
\x20 else if (row.depth < last.depth) {\n\
\x20   fill(last.below, row.name, row.start);\n\
\x20   Object.assign(row, { below: last.below.below, began: last.below.began });\n\
\x20 } else Object.assign(row, { below: last.below, began: last.began });\n\
});\n\
facts.calls.pop();\n\
let told = rows.find(row => row.step === facts.calls_at + 1)?.below;\n\
for (const [strings, start] of facts.calls) {\n\
\x20 fill(told, spots.find(it => it.from === strings - 1)?.name, start);\n\
\x20 told = told?.below;\n\
}\n\
\n\
// The words of memory where the machine is, which begins at the end, and those that the program ever used.\n\
const words = new Map();\n\
for (let k = 0; k + 1 < facts.words.length; k += 2) words.set(facts.words[k], facts.words[k + 1]);\n\
for (const row of rows) row.stored.forEach((_, k) => words.has(row.address + k) || words.set(row.address + k, 0));\n\
const first = 7;\n\
// The rows whose steps stored the word at an address.\n\
const stores = new Map();\n\
rows.forEach((row, at) => row.stored.forEach((_, k) => {\n\
\x20 if (!stores.has(row.address + k)) stores.set(row.address + k, []);\n\
\x20 stores.get(row.address + k).push(at);\n\
}));\n\
const used = [...words.keys()].filter(a => a >= first || stores.has(a)).sort((a, b) => a - b);\n\
let at = made;\n\
const range = (from, to) => Array.from({ length: to - from }, (_, k) => from + k);\n\
\n\
const ESCAPES = { 0: \"*0\", 4: \"*e\", 9: \"*t\", 10: \"*n\", 34: \"*\\\"\", 39: \"*'\", 42: \"**\" };\n\
// What a word was made as, which no word tells by itself: it goes with the word through the steps.\n\
const NUMBER = 1, ADDRESS = 2, FUNCTION = 3, LABEL = 4, CHARACTER = 5, PAIR = 6;\n\
const kinds = new Map();\n\
const unsigned = word => word & 65535;\n\
function kindAt(address) {\n\
\x20 if (kinds.has(address)) return kinds.get(address);\n\
\x20 const spot = spots.find(it => it.from <= address && address < it.texts);\n\
\x20 if (address < first || spot?.isFunction) return FUNCTION;\n\
\x20 if (spot?.isVector && address === spot.from) return ADDRESS;\n\
\x20 const word = words.get(address);\n\
\x20 return spot && textsOf(spot).some(it => it.from === word) ? ADDRESS : undefined;\n\
}\n\
const sum = (sign, one, other) => {\n\
\x20 if (sign === \"+\" && one !== ADDRESS) return other === ADDRESS ? ADDRESS : NUMBER;\n\
\x20 return \"+-\".includes(sign) && one === ADDRESS && other !== ADDRESS ? ADDRESS : NUMBER;\n\
};\n\
// A constant is a character where it stands so in its line.\n\
const sourceLines = facts.source.split(\"\\n\");\n\
function constant({ line }, word) {\n\
\x20 return word > 31 && sourceLines[line - 1]?.includes(constantText(word)) ? CHARACTER : NUMBER;\n\
}\n\
// What a step does to the kinds of the operands; of a store also the kinds of the words that it stores.\n\
function follow(row, stack, isCall) {\n\
\x20 const [code, part] = row.code.split(\" \"), top = unsigned(row.operands.at(-1) ?? 0);\n\
\x20 const puts = { c: constant(row, Number(part)), x: ADDRESS, a: ADDRESS, s: ADDRESS, l: LABEL }[code];\n\
\x20 if (puts) stack.push(puts);\n\
\x20 else if (code === \"v\") stack.splice(-1, 1, kindAt(top));\n\
\x20 else if (code === \"n\" || code === \"h\") stack.splice(-1, 1, NUMBER);\n\
\x20 else if (code === \"b\") stack.push(sum(part, ...stack.splice(-2)));\n\
\x20 else if (code === \"i\") stack.splice(-1, 1, kindAt(top));\n\
\x20 else if (code === \"w\" || code === \"m\") {\n\
\x20   const [, kind] = stack.splice(-2);\n\
\x20   stack.push(code === \"w\" ? kind : sum(part, kindAt(row.address), kind));\n\
\x20 } else if (\"zgp\".includes(code) || code === \"e\" && Number(part) === top) stack.pop();\n\
\x20 else if (code === \"k\") {\n\
\x20   const given = Number(part) ? stack.splice(-Number(part)) : [];\n\
\x20   stack.pop();\n\
\x20   if (isCall) return given;\n\
\x20   const name = values.get(unsigned(row.operands.at(-1 - given.length) ?? 0));\n\
\x20   stack.push({ char: CHARACTER, getchar: CHARACTER, putchar: given[0], lchar: given[2] }[name] ?? NUMBER);\n\
\x20   return [name === \"lchar\" ? PAIR : undefined];\n\
\x20 }\n\
\x20 return stack.slice(-1);\n\
}\n\
function put({ address }, list, made) {\n\
\x20 list.forEach((word, k) => words.set(address + k, word));\n\
\x20 made?.forEach((kind, k) => kinds.set(address + k, kind));\n\
}\n\
for (; at > 0; at--) put(rows[at - 1], rows[at - 1].before);\n\
let stack = [];\n\
const below = [];\n\
rows.forEach((row, k) => {\n\
\x20 const last = rows[k - 1];\n\
\x20 if (last && row.depth > last.depth) {\n\
\x20   below.push(stack);\n\
\x20   stack = [];\n\
\x20 } else if (last && row.depth < last.depth) stack = [...below.pop() ?? [], stack.at(-1)];\n\
\x20 while (stack.length < row.operands.length) stack.unshift(undefined);\n\
\x20 stack.splice(0, stack.length - row.operands.length);\n\
\x20 row.kinds = [...stack];\n\
\x20 const given = row.isMade ? follow(row, stack, rows[k + 1]?.depth > row.depth) : [];\n\
\x20 row.unmade = row.stored.map((_, n) => kindAt(row.address + n));\n\
\x20 row.kept = row.stored.map((_, n) => given[n]);\n\
\x20 put(row, row.stored, row.kept);\n\
});\n\
at = made;\n\
\n\
// The words that were used as an index: of a function, or of the definitions, the word with the index and that with the\n\
// address to which it was added, or from which on a character was looked at.\n\
function own(row, address) {\n\
\x20 const k = address - row.start, frame = functions.get(row.name)?.frame ?? 0;\n\
\x20 if (k >= 0 && k < frame) return { offset: k };\n\
\x20 return address >= first && address < end ? { address } : null;\n\
}\n\
function indexIn(row, k) {\n\
\x20 const isChar = row.code === \"k 2\" && values.get(unsigned(row.operands.at(-3))) === \"char\";\n\
\x20 if (!isChar && (row.code !== \"b +\" || row.kinds.at(-2) !== ADDRESS)) return null;\n\
\x20 const [base, , index] = rows.slice(Math.max(0, k - 3), k);\n\
\x20 if (!index || base.code !== \"v\" || !/^(v|i \\d)$/.test(index.code) || index.depth !== base.depth) return null;\n\
\x20 const [from, by] = [base, index].map(it => own(row, unsigned(it.operands.at(-1))));\n\
\x20 return from && by && { k, name: row.name, from, by, isChar };\n\
}\n\
// These uses in their order, by function and word.\n\
const uses = new Map();\n\
for (const use of rows.map(indexIn).filter(Boolean)) {\n\
\x20 const key = JSON.stringify([use.name, use.by]);\n\
\x20 uses.set(key, [...uses.get(key) ?? [], use]);\n\
}\n\
\n\
// The row of the step that comes next; after the run, that of its last step.\n\
const isOver = () => at === made && !rows[at];\n\
const running = () => rows[at] ?? rows[made - 1];\n\
const isStopped = $(\"end\").textContent.includes(\"stopped by\");\n\
// At the end of a page with a finding the step comes next that goes wrong, and this is the word that it is about.\n\
const isFound = () => facts.finding !== undefined && at === made && rows[at] !== undefined;\n\
function foundAt() {\n\
\x20 const { code, operands } = rows[at], [what, count] = code.split(\" \");\n\
\x20 const [to, k] = operands.slice({ v: -1, i: -1, w: -2, m: -2, k: -count }[what]).map(unsigned);\n\
\x20 return what === \"b\" ? undefined : what === \"k\" ? unsigned(to + (k >> 1)) : to;\n\
}\n\
\n\
function seek(to) {\n\
\x20 for (; at < to; at++) put(rows[at], rows[at].stored, rows[at].kept);\n\
\x20 for (; at > to; at--) put(rows[at - 1], rows[at - 1].before, rows[at - 1].unmade);\n\
}\n\
\n\
// The characters of words, two in each, the low byte first.\n\
function bytesOf(from, to) {\n\
\x20 return range(from, to).map(a => unsigned(words.get(a) ?? 0)).flatMap(word => [word & 255, word >> 8]);\n\
}\n\
function constantText(a) {\n\
\x20 return \"'\" + (a > 255 ? character(a >> 8) : \"\") + character(a & 255) + \"'\";\n\
}\n\
function character(byte) {\n\
\x20 return ESCAPES[byte] ?? (byte > 31 && byte < 127 ? String.fromCharCode(byte) : \"\\ufffd\");\n\
}\n\
// The strings in the words of a definition, each up to its *e, with the address of its first word.\n\
function textsOf({ texts, to }) {\n\
\x20 const found = [];\n\
\x20 for (let from = texts, a = texts; a < to; a++) {\n\
\x20   const word = unsigned(words.get(a) ?? 0);\n\
\x20   if ((word & 255) !== 4 && word >> 8 !== 4 && a + 1 < to) continue;\n\
\x20   found.push({ from, bytes: bytesOf(from, a + 1) });\n\
\x20   from = a + 1;\n\
\x20 }\n\
\x20 return found;\n\
}\n\
const LONG = 24;\n\
function quoted(bytes, mark = -1) {\n\
\x20 const length = bytes.indexOf(4) < 0 ? bytes.length : bytes.indexOf(4);\n\
\x20 const from = Math.max(0, Math.min(mark - LONG / 2, length - LONG)), to = Math.min(length, from + LONG);\n\
\x20 const text = bytes.slice(from, to).map(character).join(\"\");\n\
\x20 return (from ? \"..\" : \"\") + '\"' + text + '\"' + (to < length ? \"..\" : \"\");\n\
}\n\
\n\
// The name of the word at an address: in the frame of a call, the running one first, or of a definition.\n\
function inFrame(call, address) {\n\
\x20 const f = functions.get(call.name), k = address - call.start;\n\
\x20 if (!f || !(k >= 0 && k < f.frame)) return \"\";\n\
\x20 const named = f.names.findLast(([, offset]) => offset <= k);\n\
\x20 return named ? named[0] + (k > named[1] ? \"[\" + (k - named[1] - 1) + \"]\" : \"\") : \"@\" + address;\n\
}\n\
function nameAt(address) {\n\
\x20 for (let call = running(); call; call = call.below) {\n\
\x20   const name = inFrame(call, address);\n\
\x20   if (name) return call === running() ? name : name + \" of \" + call.name;\n\
\x20 }\n\
\x20 const spot = spots.find(it => it.from <= address && address < it.to);\n\
\x20 if (!spot) return \"\";\n\
\x20 if (address === spot.from) return spot.name;\n\
\x20 if (address >= spot.texts) {\n\
\x20   const text = textsOf(spot).findLast(it => it.from <= address);\n\
\x20   return text.from === address ? quoted(text.bytes) : quoted(text.bytes.slice(2 * (address - text.from)));\n\
\x20 }\n\
\x20 return spot.isVector ? spot.name + \"[\" + (address - spot.from - 1) + \"]\" : spot.name + \"+\" + (address - spot.from);\n\
}\n\
const ended = address => spots.find(it => it.isVector && it.texts === address)?.name;\n\
// Where the steps that made a word aren't here, an address is one that lies in a frame or begins a string.\n\
function guess(word) {\n\
\x20 if ((rows[0]?.step ?? 1) === 1) return NUMBER;\n\
\x20 const isText = spots.some(spot => spot.texts <= word && word < spot.to && textsOf(spot).some(it => it.from === word));\n\
\x20 return isText || word >= end && nameAt(word) ? ADDRESS : NUMBER;\n\
}\n\
function meant(word, kind) {\n\
\x20 const a = unsigned(word);\n\
\x20 kind ??= guess(a);\n\
\x20 if (kind === ADDRESS) {\n\
\x20   const names = [nameAt(a), ended(a) && \"the end of \" + ended(a)].filter(Boolean);\n\
\x20   return \"\\u2192 \" + (names.join(\" or \") || \"@\" + a);\n\
\x20 }\n\
\x20 if (kind === FUNCTION) return values.get(a) ?? \"\";\n\
\x20 if (kind === LABEL) return \"a label\";\n\
\x20 if (kind === PAIR) return '\"' + character(a & 255) + character(a >> 8) + '\"';\n\
\x20 return kind === CHARACTER ? constantText(a) : \"\";\n\
}\n\
// All that a word can be.\n\
function readings(word) {\n\
\x20 const a = unsigned(word), all = [String(a > 32767 ? a - 65536 : a)];\n\
\x20 if (a > 32767) all.push(a + \" without a sign\");\n\
\x20 if (a > 31 && a < 127 || ESCAPES[a]) all.push(\"'\" + character(a) + \"'\");\n\
\x20 if (a > 255) all.push(\"the characters '\" + character(a & 255) + character(a >> 8) + \"' of a string\");\n\
\x20 if (values.has(a)) all.push(\"the function \" + values.get(a));\n\
\x20 if (nameAt(a)) all.push(\"the address of \" + nameAt(a));\n\
\x20 if (ended(a)) all.push(\"the address after the end of \" + ended(a));\n\
\x20 return all.join(\", or \");\n\
}\n\
\n\
function element(tag, text, name) {\n\
\x20 const made = document.createElement(tag);\n\
\x20 if (text !== undefined) made.textContent = text;\n\
\x20 if (name) made.className = name;\n\
\x20 return made;\n\
}\n\
\n\
// A word with what it was made as. Where that is an address, the box leads to the word there.\n\
function withMeaning(box, word, kind) {\n\
\x20 const meaning = meant(word, kind);\n\
\x20 if (meaning) box.append(element(\"i\", meaning));\n\
\x20 box.dataset.word = word;\n\
\x20 if ((kind ?? guess(unsigned(word))) === ADDRESS) {\n\
\x20   box.dataset.to = unsigned(word);\n\
\x20   box.tabIndex = 0;\n\
\x20 }\n\
\x20 return box;\n\
}\n\
// Whether nothing has set a word of a frame since its call began.\n\
function isUnset(call, address) {\n\
\x20 const by = stores.get(address)?.findLast(k => k < at);\n\
\x20 return call?.began !== undefined && !(by >= call.began);\n\
}\n\
// A word of memory, with a name or an address, marked where it was stored since the position that was shown before.\n\
function word(address, name, fresh, { call, kind } = {}) {\n\
\x20 const box = element(\"span\"), value = words.get(address) ?? 0;\n\
\x20 box.dataset.address = address;\n\
\x20 box.classList.toggle(\"stop\", isFound() && address === foundAt());\n\
\x20 box.append(element(\"small\", name + \" \"));\n\
\x20 if (isUnset(call, address)) {\n\
\x20   box.append(element(\"b\", \"unset\", \"unset\"));\n\
\x20   box.dataset.word = value;\n\
\x20   box.dataset.unset = \"\";\n\
\x20   return box;\n\
\x20 }\n\
\x20 box.append(element(fresh.has(address) ? \"mark\" : \"b\", value));\n\
\x20 return withMeaning(box, value, kind ?? kindAt(address));\n\
}\n\
\n\
// Of many words the first ones are shown, and of the others those that were stored or that an index leads to.\n\
const LONGEST = 200;\n\
function boxes(addresses, fresh, make, name) {\n\
\x20 const some = addresses.filter((a, k) => k < LONGEST || fresh.has(a));\n\
\x20 const left = addresses.length - some.length, all = element(\"div\", undefined, name);\n\
\x20 all.append(...some.map(make));\n\
\x20 if (left) all.append(element(\"span\", \".. \" + left + \" more\"));\n\
\x20 return all;\n\
}\n\
const some = (addresses, fresh, make) => boxes(addresses, fresh, make, \"words\");\n\
\n\
// The words of active calls that are an index, each with the address to which it was added last, and where that leads.\n\
function leading() {\n\
\x20 const last = [...uses.values()].map(list => list.findLast(it => it.k < at) ?? list[0]), led = [];\n\
\x20 for (let call = running(); call; call = call.below) {\n\
\x20   for (const { from, by, isChar } of last.filter(it => it.name === call.name)) {\n\
\x20     const [start, index] = [from, by].map(it => it.address ?? unsigned(call.start + it.offset));\n\
\x20     if (isUnset(by.address ? null : call, index)) continue;\n\
\x20     const base = unsigned(words.get(start) ?? 0), value = words.get(index) ?? 0;\n\
\x20     led.push({ base, to: unsigned(base + (isChar ? value >> 1 : value)), name: nameAt(index) });\n\
\x20   }\n\
\x20 }\n\
\x20 return led;\n\
}\n\
let leads = [];\n\
// Words in one row, each with what stands below it: its index, and the names of the words that lead there.\n\
function cells(addresses, fresh, indexOf, options) {\n\
\x20 const led = leads.filter(it => addresses[0] <= it.base && it.base <= addresses.at(-1));\n\
\x20 return boxes(addresses, fresh, a => {\n\
\x20   const cell = element(\"span\"), names = new Set(led.filter(it => it.to === a).map(it => it.name));\n\
\x20   cell.append(word(a, \"@\" + a, fresh, options), element(\"small\", indexOf(a)));\n\
\x20   if (names.size) cell.append(element(\"small\", [...names].join(\" \"), \"index\"));\n\
\x20   return cell;\n\
\x20 }, \"cells\");\n\
}\n\
\n\
// The source, a line each, each file with its own numbers.\n\
const lines = [], places = [];\n\
const all = shown(facts.source).split(\"\\n\");\n\
facts.parts.pop();\n\
facts.parts.forEach(([name, count], k) => {\n\
\x20 if (facts.parts.length > 1) $(\"source\").append(element(\"div\", shown(name), \"file\"));\n\
\x20 const last = k + 1 === facts.parts.length;\n\
\x20 all.splice(0, last ? all.length : count).forEach((line, n) => {\n\
\x20   const number = element(\"button\", String(n + 1).padStart(4)), box = element(\"div\");\n\
\x20   places.push(\"line \" + (n + 1) + (k ? \" of \" + shown(name) : \"\"));\n\
\x20   number.dataset.line = places.length;\n\
\x20   number.tabIndex = -1;\n\
\x20   number.setAttribute(\"aria-pressed\", \"false\");\n\
\x20   number.setAttribute(\"aria-label\", \"Stop at \" + places.at(-1));\n\
\x20   box.append(number, \"  \" + line);\n\
\x20   lines.push(box);\n\
\x20   $(\"source\").append(box);\n\
\x20 });\n\
});\n\
const place = line => places[line - 1] ?? \"line \" + line;\n\
$(\"title\").textContent = document.title = shown(facts.parts[0][0]) + \", step by step\";\n\
\n\
// What calls gave since a position: those that the running call made, of the library `char` and `getchar`.\n\
function given(since, row) {\n\
\x20 const gave = [];\n\
\x20 for (let k = since; k < at; k++) {\n\
\x20   const { code, depth, operands, kinds, name } = rows[k], next = rows[k + 1];\n\
\x20   if (code === \"r\" && depth === row.depth + Number(row !== rows[k])) {\n\
\x20     gave.push([\"returned\", name, operands.at(-1), kinds.at(-1)]);\n\
\x20   }\n\
\x20   if (!next || depth !== row.depth || next.depth !== depth || !code.startsWith(\"k \")) continue;\n\
\x20   const called = values.get(unsigned(operands.at(-1 - Number(code.slice(2)))));\n\
\x20   if (called === \"char\" || called === \"getchar\") gave.push([\"gave\", called, next.operands.at(-1), next.kinds.at(-1)]);\n\
\x20 }\n\
\x20 return gave.slice(-MOST_GIVEN).map(([verb, name, value, kind]) => {\n\
\x20   const line = element(\"div\", `${name} ${verb} `, \"gave\"), box = element(\"span\");\n\
\x20   box.append(element(\"mark\", value));\n\
\x20   line.append(withMeaning(box, value, kind));\n\
\x20   return line;\n\
\x20 });\n\
}\n\
const MOST_GIVEN = 4;\n\
\n\
// The words of a frame: each vector stands in a row below its own word.\n\
function showFrame(call, fresh) {\n\
\x20 const f = functions.get(call.name) ?? { parameters: 0, frame: 0, names: [] }, parts = [];\n\
\x20 const address = k => unsigned(call.start + k), offset = a => unsigned(a - call.start);\n\
\x20 const name = k => inFrame({ name: call.name, start: 0 }, k).replace(/^@.*/, \"\");\n\
\x20 const box = a => word(a, [\"@\" + a, name(offset(a))].join(\" \").trimEnd(), fresh, { call });\n\
\x20 const starts = [...new Set([0, ...f.names.map(it => it[1])])].sort((a, b) => a - b);\n\
\x20 let singles = [];\n\
\x20 starts.forEach((from, n) => {\n\
\x20   const to = Math.min(f.frame, starts[n + 1] ?? f.frame);\n\
\x20   const isNamed = f.names.some(it => it[1] === from), inside = range(Math.min(to, from + 1), to).map(address);\n\
\x20   if (from < to) singles.push(address(from));\n\
\x20   if (!isNamed) singles.push(...inside);\n\
\x20   else if (inside.length) {\n\
\x20     parts.push(some(singles, fresh, box), cells(inside, fresh, a => \"[\" + (offset(a) - from - 1) + \"]\", { call }));\n\
\x20     singles = [];\n\
\x20   }\n\
\x20 });\n\
\x20 return [...parts, some(singles, fresh, box)];\n\
}\n\
\n\
// How many calls that wait at the same place are shown, one after another. The others are counted.\n\
const CALLS = 8;\n\
function showCalls(row, fresh, since) {\n\
\x20 $(\"calls\").replaceChildren();\n\
\x20 let last = null, alike = 0;\n\
\x20 // Of calls from before the first row the place may not be known.\n\
\x20 const isThere = call => call.name === last.name && (call.place ?? last.place) === (last.place ?? call.place);\n\
\x20 const count = () => alike > CALLS && $(\"calls\").append(element(\"li\", `and ${alike - CALLS} more from there`));\n\
\x20 for (let call = row; call; call = call.below) {\n\
\x20   if (!last || last === row || !isThere(call)) {\n\
\x20     count();\n\
\x20     alike = 0;\n\
\x20   }\n\
\x20   last = call;\n\
\x20   alike++;\n\
\x20   if (alike > CALLS) continue;\n\
\x20   const item = element(\"li\");\n\
\x20   item.append(element(\"code\", call.name ?? \"?\"), call.line ? \" \" + place(call.line) : \"\");\n\
\x20   item.append(...call === row ? given(since, row) : [], ...showFrame(call, fresh));\n\
\x20   $(\"calls\").append(item);\n\
\x20 }\n\
\x20 count();\n\
}\n\
\n\
// The characters that calls of `char` and `lchar` look at, from a position to the next step.\n\
function lookedAt(since) {\n\
\x20 const seen = new Set(), to = $(\"single\").checked ? at : at - 1;\n\
\x20 for (const { code, operands } of rows.slice(since, to + 1)) {\n\
\x20   const given = code.startsWith(\"k \") ? operands.slice(-1 - Number(code.slice(2))) : [];\n\
\x20   if (![\"char\", \"lchar\"].includes(values.get(unsigned(given[0] ?? 0)))) continue;\n\
\x20   seen.add(2 * unsigned(given[1]) + unsigned(given[2] ?? 0));\n\
\x20 }\n\
\x20 return seen;\n\
}\n\
// A string as text. The characters that were looked at are marked, and those underlined to which words of frames lead.\n\
function shownText({ from, bytes }, row, looked) {\n\
\x20 const ends = bytes.indexOf(4) < 0 ? bytes.length : bytes.indexOf(4) + 1, aims = new Set();\n\
\x20 for (let call = row; call; call = call.below) {\n\
\x20   for (let k = 0; k < (functions.get(call.name)?.frame ?? 0); k++) {\n\
\x20     const a = (call.start ?? 0) + k, to = unsigned(words.get(a) ?? 0);\n\
\x20     if (kindAt(a) === ADDRESS && to > from) aims.add(2 * (to - from));\n\
\x20   }\n\
\x20 }\n\
\x20 const box = element(\"div\");\n\
\x20 box.append('\"');\n\
\x20 bytes.slice(0, Math.min(ends, LONGEST)).forEach((byte, k) => {\n\
\x20   const tag = looked.has(2 * from + k) ? \"mark\" : aims.has(k) ? \"u\" : null;\n\
\x20   box.append(tag ? element(tag, character(byte)) : character(byte));\n\
\x20 });\n\
\x20 box.append(ends > LONGEST ? \"..\" : '\"');\n\
\x20 return box;\n\
}\n\
\n\
function showMemory(row, fresh, since) {\n\
\x20 const table = element(\"table\"), looked = lookedAt(since);\n\
\x20 const add = (name, ...parts) => {\n\
\x20   const line = table.insertRow();\n\
\x20   line.append(element(\"th\", name));\n\
\x20   line.insertCell().append(...parts);\n\
\x20   return line;\n\
\x20 };\n\
\x20 const box = (a, name) => word(a, [\"@\" + a, name].join(\" \").trimEnd(), fresh);\n\
\x20 for (const spot of spots) {\n\
\x20   const { name, from, texts, to, isVector, isFunction } = spot;\n\
\x20   if (isVector) {\n\
\x20     const row = cells(range(from + 1, texts), fresh, a => \"[\" + (a - from - 1) + \"]\");\n\
\x20     add(name, some([from], fresh, a => box(a, name)), row);\n\
\x20   } else if (!isFunction || stores.has(from)) {\n\
\x20     add(name, some(range(from, texts), fresh, a => box(a, name + (a > from ? \"+\" + (a - from) : \"\"))));\n\
\x20   }\n\
\x20   for (const text of texts < to ? textsOf(spot) : []) {\n\
\x20     const own = range(text.from, text.from + text.bytes.length / 2);\n\
\x20     add(name + \"'s string\", shownText(text, row, looked), cells(own, fresh, () => \"\", { kind: PAIR }));\n\
\x20   }\n\
\x20 }\n\
\x20 let free = end;\n\
\x20 for (let call = row; call; call = call.below) {\n\
\x20   free = Math.max(free, (call.start ?? 0) + (functions.get(call.name)?.frame ?? 0));\n\
\x20 }\n\
\x20 const others = used.filter(a => (a >= free || a < first) && (words.get(a) || stores.get(a)?.[0] < at));\n\
\x20 if (others.length) add(\"other words\", some(others, fresh, a => box(a, \"\"))).className = \"others\";\n\
\x20 $(\"memory\").replaceChildren(table);\n\
\x20 $(\"memory-part\").hidden = !table.lastChild;\n\
}\n\
\n\
// What an instruction does, in words.\n\
const SIGNS = {\n\
\x20 \"==\": \"is equal to\", \"!=\": \"isn't equal to\", \"<\": \"is below\", \"<=\": \"is at most\", \">\": \"is above\", \">=\": \"is at least\",\n\
};\n\
function gloss({ code, operands, start, name }) {\n\
\x20 const [what, one, two] = code.split(\" \"), top = operands.at(-1);\n\
\x20 const frame = () => inFrame({ name, start }, unsigned(start + Number(one)));\n\
\x20 const called = () => values.get(unsigned(operands.at(-1 - Number(one)) ?? 0)) ?? \"no function\";\n\
\x20 switch (what) {\n\
\x20   case \"c\": return `puts ${one}`;\n\
\x20   case \"x\": return `puts the address of ${one}`;\n\
\x20   case \"a\": return `puts the address of ${frame()}`;\n\
\x20   case \"s\": return \"puts the address of a string\";\n\
\x20   case \"l\": return \"puts the value of a label\";\n\
\x20   case \"v\": return `takes the address ${top}, puts the word there`;\n\
\x20   case \"w\": return `stores ${top} at the address below it, and leaves it`;\n\
\x20   case \"b\": {\n\
\x20     const [left, right] = operands.slice(-2);\n\
\x20     return SIGNS[one] ? `puts 1 if ${left} ${SIGNS[one]} ${right}, else 0` : `puts ${left} ${one} ${right}`;\n\
\x20   }\n\
\x20   case \"m\": return `changes the word at the address by ${one}, and puts it`;\n\
\x20   case \"n\": return `puts the negative of ${top}`;\n\
\x20   case \"h\": return `puts 1 if ${top} is 0, else 0`;\n\
\x20   case \"i\": {\n\
\x20     const does = one % 2 ? \"takes 1 from\" : \"adds 1 to\";\n\
\x20     return `${does} the word at ${top}, puts the ${one < 2 ? \"new\" : \"old\"} one`;\n\
\x20   }\n\
\x20   case \"j\": return `goes to place ${one}`;\n\
\x20   case \"z\": return `goes to place ${one} if ${top} is 0`;\n\
\x20   case \"g\": return `goes to the label of value ${top}`;\n\
\x20   case \"e\": return `goes to place ${two} if the word is ${one}`;\n\
\x20   case \"k\": return `calls ${called()} with ${one} ${one === \"1\" ? \"argument\" : \"arguments\"}`;\n\
\x20   case \"r\": return `returns ${top}`;\n\
\x20   case \"p\": return `drops ${top}`;\n\
\x20 }\n\
\x20 return \"\";\n\
}\n\
\n\
// An arrow from a box to the word to which it leads, by the edges that lie nearest.\n\
function arrow(box, there, hue) {\n\
\x20 const edge = $(\"arrows\").getBoundingClientRect();\n\
\x20 const [from, into] = [box, there].map(it => it.getBoundingClientRect());\n\
\x20 const isBelow = into.top >= from.bottom, isAbove = into.bottom <= from.top;\n\
\x20 const start = (isBelow ? from.bottom : from.top) - edge.top, stop = (isAbove ? into.bottom : into.top) - edge.top;\n\
\x20 const bend = Math.max(16, Math.abs(stop - start) / 2), head = isAbove ? 6 : -6;\n\
\x20 const x = (it, { left, width }) => {\n\
\x20   const row = it.closest(\".cells\")?.getBoundingClientRect();\n\
\x20   return Math.min(row?.right ?? Infinity, Math.max(row?.left ?? 0, left + width / 2)) - edge.left;\n\
\x20 };\n\
\x20 const [x1, x2] = [x(box, from), x(there, into)];\n\
\x20 const line = document.createElementNS(\"http://www.w3.org/2000/svg\", \"path\");\n\
\x20 line.setAttribute(\"d\", `M${x1} ${start}C${x1} ${start + (isBelow ? bend : -bend)} ${x2} `\n\
\x20   + `${stop + (isAbove ? bend : -bend)} ${x2} ${stop}l-4 ${head}m4 ${-head}l4 ${head}`);\n\
\x20 line.style.stroke = `hsl(${hue} 75% 45%)`;\n\
\x20 return line;\n\
}\n\
// The arrows that are seen: of all words, or of the one that is aimed at.\n\
let aimed = null;\n\
function drawArrows() {\n\
\x20 const ofCalls = \"#right [data-to]:not(.others *)\";\n\
\x20 const all = $(\"all-arrows\").checked ? document.querySelectorAll(ofCalls) : [aimed].filter(Boolean);\n\
\x20 const there = box => [...document.querySelectorAll(`[data-address=\"${box.dataset.to}\"]`)].find(it => it !== box);\n\
\x20 const pairs = [...all].map(box => [box, there(box)]).filter(it => it[1] && it[0].offsetParent);\n\
\x20 $(\"arrows\").replaceChildren(...pairs.map(([box, it], k) => arrow(box, it, 215 + 67 * k)));\n\
}\n\
// Marks the word to which a box leads and those that lead to it.\n\
function aim(box) {\n\
\x20 document.querySelectorAll(\".aim\").forEach(it => it.classList.remove(\"aim\"));\n\
\x20 aimed = box;\n\
\x20 if (box) {\n\
\x20   const { to, address } = box.dataset;\n\
\x20   if (to) document.querySelectorAll(`[data-address=\"${to}\"]`).forEach(it => it !== box && it.classList.add(\"aim\"));\n\
\x20   if (address) document.querySelectorAll(`[data-to=\"${address}\"]`).forEach(it => it.classList.add(\"aim\"));\n\
\x20 }\n\
\x20 drawArrows();\n\
}\n\
\n\
// What was written or read before each row, by its length.\n\
const after = (what, total) => {\n\
\x20 const lengths = [];\n\
\x20 let length = total - rows.reduce((sum, row) => sum + row[what].length, 0);\n\
\x20 for (const row of rows) {\n\
\x20   lengths.push(length);\n\
\x20   length += row[what].length;\n\
\x20 }\n\
\x20 return lengths.concat(length);\n\
};\n\
const wrote = after(\"written\", facts.output.length);\n\
const heard = after(\"read\", facts.heard.length);\n\
\n\
// How many characters two texts have in common: one of several bytes is there with its last byte.\n\
function common(one, other) {\n\
\x20 let length = 0;\n\
\x20 while (length < one.length && one[length] === other[length]) length++;\n\
\x20 return length;\n\
}\n\
\n\
// A text with one part of it marked.\n\
function marked(box, text, from, to) {\n\
\x20 const part = to > from ? [element(\"mark\", text.slice(from, to))] : [];\n\
\x20 box.replaceChildren(text.slice(0, from), ...part, text.slice(to));\n\
}\n\
\n\
// The source beside a position: the line that was made last, and the next one, or that where the run was stopped.\n\
function showLines(row) {\n\
\x20 const last = rows[at - 1], legend = [];\n\
\x20 lines.forEach(line => {\n\
\x20   line.removeAttribute(\"aria-current\");\n\
\x20   line.classList.remove(\"past\", \"stop\");\n\
\x20   line.firstChild.tabIndex = -1;\n\
\x20 });\n\
\x20 if (last && !(isOver() && isStopped)) {\n\
\x20   lines[last.line - 1]?.classList.add(\"past\");\n\
\x20   legend.push(element(\"span\", `\\u2713 just made: ${last.name}, ${place(last.line)}`, \"past\"));\n\
\x20 }\n\
\x20 const next = isOver() && !isStopped ? null : row, line = lines[(next ?? last)?.line - 1];\n\
\x20 if (next) {\n\
\x20   const isStop = isOver() || isFound(), name = isStop ? \"stop\" : \"now\";\n\
\x20   const what = isOver() ? \"\\u2715 stopped in\" : isFound() ? \"\\u2715 goes wrong in\" : \"\\u25b6 next\";\n\
\x20   line?.setAttribute(\"aria-current\", \"step\");\n\
\x20   if (isStop) line?.classList.add(\"stop\");\n\
\x20   legend.push(element(\"span\", `${what}: ${next.name}, ${place(next.line)}`, name));\n\
\x20 }\n\
\x20 $(\"legend\").replaceChildren(...legend);\n\
\x20 if (!line) return;\n\
\x20 line.firstChild.tabIndex = 0;\n\
\x20 const box = $(\"source\"), y = line.offsetTop, height = box.clientHeight;\n\
\x20 if (y < box.scrollTop || y + line.offsetHeight > box.scrollTop + height) box.scrollTop = y - height / 3;\n\
}\n\
\n\
// Where the run is, in words, and how it ended, once it did.\n\
function showPlace(row, single) {\n\
\x20 const unmade = row?.isMade === false ? \" (not made)\" : \"\";\n\
\x20 $(\"step\").textContent = !row ? \"No step\" : isOver() ? `After step ${row.step}`\n\
\x20   : single ? `Step ${row.step}: ${row.name}, place ${row.place}, ${place(row.line)}, ${row.code}${unmade}`\n\
\x20     : `${row.name}, ${place(row.line)}, before step ${row.step}${unmade}`;\n\
\x20 $(\"gloss\").textContent = isOver() ? \"\" : row.code + \": \" + gloss(row);\n\
\x20 $(\"at\").value = at;\n\
\x20 $(\"visit\").value = visits.findLastIndex(k => k <= at);\n\
\x20 $(\"at\").setAttribute(\"aria-valuetext\", $(\"step\").textContent);\n\
\x20 $(\"visit\").setAttribute(\"aria-valuetext\", $(\"step\").textContent);\n\
\x20 $(\"end\").hidden = at < made;\n\
\x20 $(\"link\").href = \"#s=\" + (row ? row.step + Number(isOver()) : 1);\n\
}\n\
\n\
// The output so far, with what is new, seen to its end; and the input, with what was read.\n\
function showStreams(since) {\n\
\x20 const output = shown(facts.output.slice(0, wrote[at])), before = shown(facts.output.slice(0, wrote[since]));\n\
\x20 marked($(\"output\"), output, common(output, before), output.length);\n\
\x20 $(\"output\").scrollTop = $(\"output\").scrollHeight;\n\
\x20 const bytes = facts.given || facts.heard, input = shown(bytes);\n\
\x20 marked($(\"input\"), input, 0, common(input, shown(bytes.slice(0, heard[at]))));\n\
}\n\
\n\
// Of a row of words that doesn't fit, what was stored is seen, or else what an index leads to.\n\
function scrollRows() {\n\
\x20 for (const row of document.querySelectorAll(\".cells\")) {\n\
\x20   const seen = row.querySelector(\"mark\") ?? row.querySelector(\".index\"), cell = seen?.closest(\".cells > span\");\n\
\x20   if (cell && cell.offsetLeft + cell.offsetWidth > row.offsetLeft + row.clientWidth) {\n\
\x20     row.scrollLeft = cell.offsetLeft - row.offsetLeft - row.clientWidth / 2;\n\
\x20   }\n\
\x20 }\n\
}\n\
\n\
// Shows a position. Marked is what changed since another one, if that lies before it, and else since the line or step\n\
// before it.\n\
function show(to, shown_before = Infinity) {\n\
\x20 seek(Math.min(made, Math.max(0, to)));\n\
\x20 const single = $(\"single\").checked, row = running();\n\
\x20 const before = single ? at - 1 : visits.findLast(k => k < at) ?? 0;\n\
\x20 const since = Math.max(0, shown_before < at ? shown_before : before);\n\
\x20 const fresh = new Set(rows.slice(since, at).flatMap(it => it.stored.map((_, k) => it.address + k)));\n\
\x20 showPlace(row, single);\n\
\x20 showLines(row);\n\
\x20 $(\"operands\").replaceChildren(...(isOver() && !isStopped ? [] : row?.operands ?? []).map((word, k) => {\n\
\x20   const box = element(\"span\");\n\
\x20   box.append(element(\"b\", word));\n\
\x20   return withMeaning(box, word, row.kinds[k]);\n\
\x20 }));\n\
\x20 leads = leading();\n\
\x20 showCalls(row, fresh, since);\n\
\x20 showMemory(row, fresh, since);\n\
\x20 showStreams(since);\n\
\x20 scrollRows();\n\
\x20 aim();\n\
\x20 showQuestion();\n\
}\n\
// A visit of a line begins where another line begins, or another call goes on.\n\
const visits = [...rows.keys()].filter(k => k === 0 || k < made\n\
\x20 && (rows[k].line !== rows[k - 1].line || rows[k].depth !== rows[k - 1].depth)).concat(made || []);\n\
const next = is => {\n\
\x20 for (let k = at + 1; k < made; k++) if (is(k)) return k;\n\
\x20 return made;\n\
};\n\
const nextVisit = is => visits.find(k => k > at && (k === made || is(rows[k]))) ?? made;\n\
const stops = new Set();\n\
const go = {\n\
\x20 first: () => 0,\n\
\x20 last: () => made,\n\
\x20 back: () => at - 1,\n\
\x20 on: () => at + 1,\n\
\x20 back10: () => at - 10,\n\
\x20 on10: () => at + 10,\n\
\x20 line: () => nextVisit(() => true),\n\
\x20 previous: () => visits.findLast(k => k < at) ?? 0,\n\
\x20 line10: () => visits[Math.min(visits.length - 1, visits.findLastIndex(k => k <= at) + 10)] ?? made,\n\
\x20 previous10: () => visits[Math.max(0, visits.findLastIndex(k => k <= at) - 10)] ?? 0,\n\
\x20 over: () => nextVisit(row => row.depth < rows[at].depth\n\
\x20   || row.depth === rows[at].depth && row.line !== rows[at].line),\n\
\x20 out: () => nextVisit(row => row.depth < rows[at].depth),\n\
\x20 stop: () => nextVisit(row => stops.has(row.line)),\n\
\x20 write: () => next(k => rows[k - 1].written !== \"\"),\n\
};\n\
// Goes to a position: not past a question that isn't answered.\n\
function move(to, shown_before) {\n\
\x20 show(to > at ? Math.min(to, visits.find(k => k >= at && isOpen(k)) ?? to) : to, shown_before);\n\
\x20 if (!$(\"ask\").hidden) $(\"answer\").focus();\n\
}\n\
// What is asked at the visit of a line: the word that it stores, what its function returns, or what it writes.\n\
function questionAt(visit) {\n\
\x20 const to = visits.find(k => k > visit) ?? made, row = rows[visit], steps = rows.slice(visit, to);\n\
\x20 const where = place(row.line), calls = [row, rows[to] ?? rows[to - 1]];\n\
\x20 const isOwn = ({ address, stored, kept }) => kept[0] === ADDRESS && unsigned(stored[0]) === address + 1;\n\
\x20 const store = steps.findLast(it => it.stored.length && !isOwn(it) && nameIn(calls, it.address));\n\
\x20 if (store) {\n\
\x20   const k = store.stored.length - 1, name = nameIn(calls, store.address + k);\n\
\x20   return { text: `After ${where}, what is ${name}?`, word: store.stored[k], kind: store.kept[k] };\n\
\x20 }\n\
\x20 const { code, operands, kinds } = steps.at(-1);\n\
\x20 if (code === \"r\" && row.depth > 0 && /\\breturn\\b/.test(sourceLines[row.line - 1])) {\n\
\x20   return { text: `What does ${row.name} return in ${where}?`, word: operands.at(-1), kind: kinds.at(-1) };\n\
\x20 }\n\
\x20 const output = steps.map(it => it.written).join(\"\");\n\
\x20 return output && { text: `What does ${where} write?`, output };\n\
}\n\
// The name of a word in the call that makes the line, or in the one that goes on then, or of a definition.\n\
function nameIn([row, next], address) {\n\
\x20 const [own, other] = [row, next].map(call => inFrame(call, address).replace(/^@.*/, \"\"));\n\
\x20 const spot = spots.find(it => it.from <= address && address < it.texts && !it.isFunction);\n\
\x20 return own || other && `${other} of ${next.name}` || (spot ? nameAt(address) : \"\");\n\
}\n\
// The visits that were answered, and whether at once.\n\
const answered = new Map();\n\
let misses = 0;\n\
const isAsking = () => $(\"asks\").checked === true;\n\
const isChosen = line => stops.size === 0 || stops.has(line);\n\
const isOpen = k => isAsking() && k < made && !answered.has(k) && isChosen(rows[k].line) && !!questionAt(k);\n\
function isRight({ output, word, kind }, text) {\n\
\x20 const plain = it => it.replace(/\\s+/g, \" \").trim();\n\
\x20 if (output !== undefined) return plain(text) === plain(shown(output));\n\
\x20 const a = unsigned(word), name = kind === ADDRESS ? \"&\" + nameAt(a) : constantText(a);\n\
\x20 return [String(word), String(a), name].includes(text.trim());\n\
}\n\
function showQuestion() {\n\
\x20 const isPending = visits.includes(at) && isOpen(at);\n\
\x20 $(\"ask\").hidden = !isPending;\n\
\x20 $(\"question\").textContent = isPending ? questionAt(at).text : \"\";\n\
\x20 $(\"all\").hidden = isAsking();\n\
\x20 if (!isAsking()) $(\"asked\").textContent = \"\";\n\
\x20 if (isAsking() && stops.size) $(\"link\").href = \"#ask=\" + [...stops].join(\",\");\n\
}\n\
// Ends a question, since its answer is right or is told. Then the line is made.\n\
function settle(isKnown) {\n\
\x20 const { output, word, kind } = questionAt(at);\n\
\x20 const told = output === undefined ? `${word} ${meant(word, kind)}`.trim() : shown(output).trim() || \"blanks\";\n\
\x20 answered.set(at, isKnown && misses === 0);\n\
\x20 misses = 0;\n\
\x20 $(\"answer\").value = \"\";\n\
\x20 const all = [...answered.values()], count = `${all.filter(Boolean).length} of ${all.length} at once`;\n\
\x20 move(visits.find(k => k > at) ?? made, at);\n\
\x20 $(\"asked\").textContent = `${isKnown ? \"Right\" : \"It is\"}: ${told}. ${count}.`;\n\
}\n\
function reply() {\n\
\x20 const text = $(\"answer\").value.trim();\n\
\x20 if (text && isRight(questionAt(at), text)) settle(true);\n\
\x20 else if (text) {\n\
\x20   misses++;\n\
\x20   $(\"asked\").textContent = `${text} isn't right. Look at the words, and try again.`;\n\
\x20 }\n\
}\n\
$(\"reply\").addEventListener(\"click\", reply);\n\
$(\"answer\").addEventListener(\"keydown\", event => event.key === \"Enter\" && reply());\n\
$(\"tell\").addEventListener(\"click\", () => settle(false));\n\
$(\"asks\").addEventListener(\"change\", () => show(at));\n\
\n\
const keys = {\n\
\x20 Home: \"first\", End: \"last\", l: \"line\", p: \"previous\", o: \"over\", u: \"out\", s: \"stop\", w: \"write\",\n\
};\n\
const arrows = { ArrowLeft: [\"previous\", \"back\"], ArrowRight: [\"line\", \"on\"] };\n\
document.addEventListener(\"keydown\", event => {\n\
\x20 if (event.ctrlKey || event.altKey || event.metaKey || event.target === $(\"answer\")) return;\n\
\x20 const key = event.key.length > 1 ? event.key : event.key.toLowerCase();\n\
\x20 const box = { i: \"single\", a: \"all-arrows\", q: \"asks\" }[key];\n\
\x20 if (box) {\n\
\x20   event.preventDefault();\n\
\x20   $(box).click();\n\
\x20 }\n\
\x20 const name = arrows[key]?.[Number($(\"single\").checked)] ?? keys[key];\n\
\x20 if (!name) return;\n\
\x20 event.preventDefault();\n\
\x20 move(go[name + (event.shiftKey && name + \"10\" in go ? \"10\" : \"\")](), at);\n\
});\n\
for (const button of document.querySelectorAll(\"[data-go]\")) {\n\
\x20 button.addEventListener(\"click\", () => move(go[button.dataset.go](), at));\n\
}\n\
$(\"at\").addEventListener(\"input\", () => move(Number($(\"at\").value)));\n\
$(\"visit\").addEventListener(\"input\", () => move(visits[Number($(\"visit\").value)] ?? 0));\n\
$(\"single\").addEventListener(\"change\", () => {\n\
\x20 const single = $(\"single\").checked;\n\
\x20 for (const id of [\"at\", \"gloss\", \"single-parts\"]) $(id).hidden = !single;\n\
\x20 $(\"visit\").hidden = single;\n\
\x20 for (const button of document.querySelectorAll(\"[data-go=back], [data-go=on]\")) button.hidden = !single;\n\
\x20 show(at);\n\
});\n\
$(\"source\").addEventListener(\"click\", event => {\n\
\x20 const number = event.target.closest(\"button\"), line = Number(number?.dataset.line);\n\
\x20 if (!line) return;\n\
\x20 if (!stops.delete(line)) stops.add(line);\n\
\x20 number.setAttribute(\"aria-pressed\", String(stops.has(line)));\n\
\x20 showQuestion();\n\
});\n\
for (const type of [\"pointerover\", \"focusin\", \"click\"]) {\n\
\x20 $(\"right\").addEventListener(type, event => {\n\
\x20   const box = event.target.closest(\"[data-word]\");\n\
\x20   aim(box);\n\
\x20   if (!box || type === \"pointerover\") return;\n\
\x20   const unset = \"unset\" in box.dataset ? \"nothing in this call has set it; left from before is \" : \"\";\n\
\x20   $(\"about\").textContent = unset + box.dataset.word + \": \" + readings(box.dataset.word);\n\
\x20 });\n\
}\n\
$(\"all-arrows\").addEventListener(\"change\", drawArrows);\n\
addEventListener(\"resize\", drawArrows);\n\
$(\"right\").addEventListener(\"scroll\", drawArrows, true);\n\
$(\"all\").addEventListener(\"toggle\", () => $(\"all\").classList.toggle(\"shown\", $(\"all\").open));\n\
$(\"at\").max = made;\n\
$(\"visit\").max = Math.max(0, visits.length - 1);\n\
$(\"told\").prepend($(\"title\"));\n\
if (facts.again) {\n\
\x20 const [from, to, strings, line] = facts.again, { name } = spots.find(it => it.from === strings - 1);\n\
\x20 $(\"end\").append(` It never ends: after ${to} steps all is as it was after ${from}.`);\n\
\x20 $(\"end\").append(` The loop is in ${shown(name)}, ${place(line)}.`);\n\
}\n\
if (facts.finding !== undefined) $(\"end\").textContent = `Step ${rows[made]?.step} goes wrong: ${shown(facts.finding)}.`;\n\
$(\"step\").after($(\"end\"));\n\
$(\"end\").classList.toggle(\"stop\", isStopped || facts.finding !== undefined);\n\
$(\"input-part\").hidden = !facts.given && !facts.heard;\n\
$(\"view\").hidden = false;\n\
$(\"all\").open = false;\n\
\n\
// A comment that begins with `ask` chooses its line, and so does a link that ends in #ask=5,7. Then the page asks.\n\
function askAt(chosen) {\n\
\x20 for (const line of chosen) {\n\
\x20   stops.add(line);\n\
\x20   lines[line - 1]?.firstChild.setAttribute(\"aria-pressed\", \"true\");\n\
\x20 }\n\
\x20 if (chosen.length) $(\"asks\").checked = true;\n\
}\n\
askAt(sourceLines.map((text, k) => /\\/\\*\\s*ask\\b.*\\*\\//.test(text) ? k + 1 : 0).filter(Boolean));\n\
\n\
// A link leads to a step by its number, or chooses lines.\n\
function showLinked() {\n\
\x20 const chosen = /^#ask=([\\d,]+)$/.exec(location.hash)?.[1] ?? \"\";\n\
\x20 askAt(chosen.split(\",\").map(Number).filter(line => line > 0 && line <= lines.length));\n\
\x20 const step = Number(/^#s=(\\d+)$/.exec(location.hash)?.[1] ?? 0), k = rows.findIndex(row => row.step >= step);\n\
\x20 show(step ? (k < 0 ? made : k) : facts.finding === undefined ? 0 : made);\n\
}\n\
addEventListener(\"hashchange\", showLinked);\n\
$(\"link\").hidden = !/^(file|https?):$/.test(location.protocol);\n\
showLinked();\n\
</script>\n\
</html>\n\
";
